// The twelve scenes of document 01, proved against the definitions: lemmas only.
#![tactic(auto)]
