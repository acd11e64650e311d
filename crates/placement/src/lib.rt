// How an id stands in a tree, and 'well placed' (document 01, 'Records and resolving'). The definitions stand in specs/, laws about them in proofs/; no run of the walk is in them.
#![tactic(auto)]
