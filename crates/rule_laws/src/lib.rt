// The verifier's tests of 000's constraints refuse what the constraints refuse. Nothing is computed here.
#![tactic(auto)]

pub fn nothing() {}
