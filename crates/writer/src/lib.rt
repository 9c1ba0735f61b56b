// Writing one packet, and the two round trips.
#![tactic(auto)]

pub mod again;
pub mod write;
