// The words of 000's formulas. Nothing is computed here.
#![tactic(auto)]

pub fn nothing() {}
