// Displays trees and resolved lists, one field a line: what the programs print of them, and of a place in a tree where it is
// refused.
#![tactic(auto)]

pub mod buffer;
mod cut;
pub mod fields;
pub mod line;
mod names;
pub mod place;
mod resolved;
