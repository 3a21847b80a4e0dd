// What a chain unit holds and how its check searches. In code: the codec of a loan word and of the word before the loans, and the place
// of a number among rising words.

#![tactic(auto)]

pub mod halving;
pub mod loan;
