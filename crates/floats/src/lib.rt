// Floats as whole numbers and as fractions: lemmas only, for any format. The definitions stand in specs/, the laws in proofs/.
#![tactic(auto)]
