// Checks of the calls on numbers: no code, all in specs/.
