// A take as code: its opening, the place of a packet, following by value, the tally by value.
#![tactic(auto)]

pub mod counter;
pub mod counts;
pub mod follow;
pub mod judge;
pub mod line;
pub mod open;
