// The summaries of objects' bytes: what is made of one object, and what two summaries say of their objects. No code.
#![tactic(auto)]
