// Theory alone: which texts are listings, and what the listing reader's definitions tell of them. See proofs/Listings and proofs/Answers.

#![tactic(auto)]
