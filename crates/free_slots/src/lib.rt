// The slots that are free for a server: asking for the lowest, and putting a command into one.
#![tactic(auto)]

pub mod asking;
pub mod putting;
