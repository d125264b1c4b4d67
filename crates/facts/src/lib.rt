// What acceptance gives: laws from an accepted op to the facts that evaluating it requires. Nothing is computed here.
#![tactic(auto)]

pub fn nothing() {}
