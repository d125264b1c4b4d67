// Computed examples of definitions that no other table holds: verdicts, and reductions by trees. Nothing is computed here.
#![tactic(auto)]

pub fn nothing() {}
