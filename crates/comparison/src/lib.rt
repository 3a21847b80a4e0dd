// Tickets and lists compared, as a theorem. There is no code here.

#![tactic(auto)]
