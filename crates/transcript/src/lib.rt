// The whole output for a whole input, and demand 3 at the text. There is no code here.

#![tactic(auto)]
