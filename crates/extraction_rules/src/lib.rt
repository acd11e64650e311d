// The rules of extraction: port of swc_bundler's `bundler/import/mod.rs`, `extract_import_info`. The rules stand in specs/, laws about them in proofs/; the code stands in a crate of its own.
#![tactic(auto)]
