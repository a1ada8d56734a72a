#![tactic(auto)]

// Linear arithmetic over the integers for proofs by omega: laws in proofs/. It has no code.
