// The rules of document 01 and their laws: no code, all in specs/.
