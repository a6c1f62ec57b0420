// Lemmas that several crates cite; there is no code here.
#![tactic(auto)]
