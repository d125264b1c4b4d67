// What a reduction's body computes, from its text, and that evaluating computes it: laws about the definitions. Nothing is computed here.
#![tactic(auto)]

pub fn nothing() {}
