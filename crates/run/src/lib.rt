// Programs over any set of ops, their evaluation, trees, free runs and the order theorem. Nothing is computed here.
#![tactic(auto)]

pub fn nothing() {}
