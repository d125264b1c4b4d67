// Demand 3 used: its premise met by every body on every element type, and what its claim gives of one text. Nothing is computed here.
#![tactic(auto)]

pub fn nothing() {}
