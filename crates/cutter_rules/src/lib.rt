// What cutting answers (document 01, "Numbers the bench sees"): types alone, no function.
#![tactic(auto)]

use answers::Made;

// The most frames that a packet can have.
#[derive(Clone, Copy)]
pub struct Largest {
    pub answer: Made,
    pub frames: u16,
}

// The bytes of the packet that was cut.
#[derive(Clone, Copy)]
pub struct Cut {
    pub answer: Made,
    pub length: usize,
}
