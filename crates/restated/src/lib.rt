// What docs/statements has, restated for the prover: see specs/, which tests/restated writes.
