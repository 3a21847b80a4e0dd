// Demands 2 and 3 as theorems, and document 01's examples. There is no code here.

#![tactic(auto)]
