// Theorems alone: what the contracts of the other crates promise. See proofs/Promises.

#![tactic(auto)]
