// The pattern question: do the nine cells of a scene fit an OGC relate pattern?
#![tactic(auto)]

pub mod pattern;
pub mod question;
