// Texts that meet the premise of demand 3, and texts that do not. Nothing is computed here.
#![tactic(auto)]

pub fn nothing() {}
