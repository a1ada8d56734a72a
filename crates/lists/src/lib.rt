#![tactic(auto)]

// Searches over the numbers below a bound: definitions in specs/, laws in proofs/. It has no code.
