// Checks of the calls of observers on numbers: no code, all in specs/.
