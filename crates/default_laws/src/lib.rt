// What the definitions of verifying have where a text gives no value: no text that comes so far meets it. Nothing is computed here.
#![tactic(auto)]

pub fn nothing() {}
