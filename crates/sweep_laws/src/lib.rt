// What a left-to-right sweep tests, keeps and notes: definitions and lemmas only. The definitions stand in specs/, the laws in proofs/.
#![tactic(auto)]
