// The starred values as one table over the definitions that the contracts cite; there is no code here.
#![tactic(auto)]
