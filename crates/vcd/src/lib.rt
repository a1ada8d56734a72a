#![tactic(auto)]

// What a recording of a logic analyser says (a value change dump, document 02, §8): definitions in specs/, theorems about them in proofs/. It has no code.
