// A server on its own gets through; there is no code here.
#![tactic(auto)]
