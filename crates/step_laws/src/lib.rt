// Laws of the whole step; there is no code here.
#![tactic(auto)]
