// The rules behind an expression: what it is once it is walked, calls of require, usages of imported ids.
#![tactic(auto)]

pub mod ident; // which id an expression is once it is walked
pub mod require; // calls of require
pub mod usages; // usages of imported ids
