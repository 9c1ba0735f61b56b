// Names, the bits of bytes 4 and 7, and rates.
#![tactic(auto)]

pub mod bits;
pub mod name;
pub mod rate;
