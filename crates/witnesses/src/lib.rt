// Theorems on lists of calls: no code, all in specs/.
