// Runs worked out in full, to show what the theorem about whole runs says of them, and rooms in which a server on its own needs as
// many steps as the bound allows; there is no code here.
#![tactic(auto)]
