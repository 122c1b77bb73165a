// Theorems on observers' calls: no code, all in specs/.
