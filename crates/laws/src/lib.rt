// Definitions and laws on lists and numbers, in specs/ and proofs/. Nothing of the project is in them.

#![tactic(auto)]
