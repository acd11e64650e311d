// The byte form of a module: its grammar, reading it, and access to its fields.
#![tactic(auto)]

pub mod layout; // atoms, contexts, ids and literals in bytes
pub mod grammar; // which fixed bytes and which parts a tag has
pub mod access; // where a field and its fixed bytes end
pub mod row; // the fields that stand in a row
pub mod refused; // why something is refused, and where
pub mod read; // reading bytes by the grammar
