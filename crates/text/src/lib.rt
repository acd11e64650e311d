// The text of the vectors: fields apart by single spaces, bytes in hexadecimal, numbers in decimal.
// Reading answers what a field spells, or that it spells nothing; writing goes on behind a text of bounded length.
#![tactic(auto)]

pub mod decimal;
pub mod fields;
pub mod hex;
pub mod write;
