// The form of a reduction's body: over its parts, as the code has it, and over its lists of tokens. Nothing is computed here.
#![tactic(auto)]

pub fn nothing() {}
