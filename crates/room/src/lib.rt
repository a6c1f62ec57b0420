// Open and step over the lent cells of a room.
#![tactic(auto)]

pub mod effect;
pub mod opening;
pub mod stepping;
