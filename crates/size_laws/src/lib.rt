// What each of the eight sizes says at a token (01, Sizes), by the tokens before it. Nothing is computed here.
#![tactic(auto)]

pub fn nothing() {}
