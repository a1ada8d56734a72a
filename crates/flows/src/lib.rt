#![tactic(auto)]

// What the solutions of the path-counting program have to do with counted runs and accepted bounds: theorems in proofs/. It has no code.
