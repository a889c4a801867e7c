// The theory of words fed one at a time; there is no function here.

#![tactic(auto)]
