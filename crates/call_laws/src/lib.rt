// Theorems on what calls keep and write: no code, all in specs/.
