// The rules of resolving: port of swc_bundler's `bundler/load.rs`, `resolve_imports`. The rules stand in specs/, laws about them in proofs/; the code stands in a crate of its own.
#![tactic(auto)]
