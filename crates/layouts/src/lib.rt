// Images as layouts, and the command machine that every unit is. In code: numbers 1 to 3 of a command and of a check, the flat unit that
// lists and rows are, and the live set of an image of bytes.

#![tactic(auto)]

pub mod admit;
pub mod flat;
pub mod live;
