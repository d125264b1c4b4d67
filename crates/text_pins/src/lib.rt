// Computed examples that hold the definitions of bytes, tokens, dense values and printing. Nothing is computed here.
#![tactic(auto)]

pub fn nothing() {}
