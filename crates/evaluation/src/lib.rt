// What the bench answers and what the store then holds. The definitions are in specs; nothing is computed here.
#![tactic(auto)]
