// What the paper says of captures (document 01, "Track and capture"): no function is here. The code is `capture`.
#![tactic(auto)]

// Bytes of a capture record: address, length, datagram and padding.
pub const RECORD: usize = 1472;
