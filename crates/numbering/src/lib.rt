// Which grant of a list admits an address: laws of the definition. No function.

#![tactic(auto)]
