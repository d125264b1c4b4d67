// Short texts with their whole verdict: each reason of refusal 7. Nothing is computed here.
#![tactic(auto)]

pub fn nothing() {}
