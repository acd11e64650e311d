// Imports in both passes, and export specifiers.
#![tactic(auto)]

mod parts; // an import's specifiers and attributes
mod note; // what the first pass notes of a resolved import
pub mod first; // an import in the first pass
pub mod second; // an import in the second pass
pub mod export; // an export specifier
