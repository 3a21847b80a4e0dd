// Leaves on bytes and words, and the laws of sets, bits, cells and sweeps that every crate above shares.

#![tactic(auto)]

pub use crate::word::Word;

pub mod bytes;
mod word;
pub mod words;
