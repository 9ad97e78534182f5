// Exact whole numbers: lemmas only. The definitions stand in specs/, the laws in proofs/.
#![tactic(auto)]
