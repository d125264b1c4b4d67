// What the constraints of each op say, as facts, and the laws both ways. Nothing is computed here.
#![tactic(auto)]

pub fn nothing() {}
