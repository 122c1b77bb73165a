// The books and calls that checks compute on: no code, all in specs/.
