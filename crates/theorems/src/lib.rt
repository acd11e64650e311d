// Theorems over several calls, on the rules. They stand in specs/, their proofs in proofs/.
#![tactic(auto)]
