// Cutting a track into datagrams: the largest frame count, the schedule of the packets, and packet k.
#![tactic(auto)]

pub mod cut;
pub mod largest;
mod schedule;
