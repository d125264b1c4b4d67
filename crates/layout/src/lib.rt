// Values in a list of slots. The definitions are in specs/Layout.antt; nothing is computed here.
#![tactic(auto)]
