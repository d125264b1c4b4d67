// Computed examples that hold the op table, by names. Nothing is computed here.
#![tactic(auto)]

pub fn nothing() {}
