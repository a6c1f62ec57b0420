// Runs, their histories, and the one-value machine; there is no code here.
#![tactic(auto)]
