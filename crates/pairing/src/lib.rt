// The pair over any batch: theorems alone. There is no function here.

#![tactic(auto)]
