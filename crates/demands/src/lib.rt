// Statements only: see specs/.
