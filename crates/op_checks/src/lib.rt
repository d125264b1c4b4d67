// 000's constraints, op by op, as lists of checks. Nothing is computed here.
#![tactic(auto)]

pub fn nothing() {}
