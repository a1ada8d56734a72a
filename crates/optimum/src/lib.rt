#![tactic(auto)]

// What the remade columns of a routine are, and the reply of the solver: definitions in specs/, theorems about them in proofs/. It has no code.
