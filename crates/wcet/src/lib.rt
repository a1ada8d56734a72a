#![tactic(auto)]

// What a routine, its bound, a counted run and a walk are: definitions in specs/, theorems about them in proofs/. It has no code.
