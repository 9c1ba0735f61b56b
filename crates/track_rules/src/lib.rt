// What the paper says of a track (document 01, "Track and capture"): no function is here. The code is `track` and `track_out`.
#![tactic(auto)]

// The bytes of a record: eight slots of three.
pub const RECORD: usize = 24;
