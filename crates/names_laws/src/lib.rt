// The names of the values of an accepted text. Nothing is computed here.
#![tactic(auto)]

pub fn nothing() {}
