// Checks of formats, soundness and linking on numbers: no code, all in specs/.
