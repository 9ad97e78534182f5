// What is written as well-known binary is read back as the same object: a statement in specs/ and its proof in proofs/; no code.
#![tactic(auto)]
