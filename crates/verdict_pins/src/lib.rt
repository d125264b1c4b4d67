// Short texts with their whole verdict: names, and texts just inside the rules. Nothing is computed here.
#![tactic(auto)]

pub fn nothing() {}
