// The laws of a segment that is cut, and of the pieces of two objects: definitions and lemmas only, in specs/ and proofs/.
#![tactic(auto)]
