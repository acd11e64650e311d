// The requests with a scope: each makes its calls in buffers that are filled before, and answers their text.
#![tactic(auto)]

pub mod extracting; // extract
pub mod listing; // resolve
pub mod pair; // both
