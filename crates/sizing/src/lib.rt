// How many words a state needs, and what that says of the writer's answer: laws of the definitions. No function.

#![tactic(auto)]
