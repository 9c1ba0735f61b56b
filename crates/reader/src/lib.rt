// Reading a datagram, and its header alone.
#![tactic(auto)]

pub mod header;
pub mod read;
