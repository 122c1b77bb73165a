// Theorems in the paper's terms: no code, all in specs/.
