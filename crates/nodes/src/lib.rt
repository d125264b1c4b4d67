// What acceptance of a text gives: its program as evaluating and free runs take it. Nothing is computed here.
#![tactic(auto)]

pub fn nothing() {}
