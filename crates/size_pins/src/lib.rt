// Texts and readings at the token that passes a size. Nothing is computed here.
#![tactic(auto)]

pub fn nothing() {}
