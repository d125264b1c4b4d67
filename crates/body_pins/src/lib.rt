// Reduction bodies not of the form, with their whole verdict. Nothing is computed here.
#![tactic(auto)]

pub fn nothing() {}
