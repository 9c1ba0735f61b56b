// What the paper says of the 28 bytes, of reading a datagram and of writing one (document 01): no function is here. The code is `wire`
// (names, bits, rates), `reader` and `writer`.
#![tactic(auto)]

use answers::{Answer, Made};

// The bytes of a header, the most data bytes of a datagram, and the most bytes of a datagram.
pub const HEADER: usize = 28;

pub const DATA_MOST: usize = 1436;

pub const LONGEST: usize = 1464;

// Frames and channels are counts, the rate and the type are their indexes.
#[derive(Clone, Copy, Default)]
pub struct Header {
    pub rate: u8,
    pub frames: u16,
    pub channels: u16,
    pub format: u8,
    pub name: [u8; 16],
    pub counter: u32,
}

// What the header alone gives, with zeros beside a refusal.
#[derive(Clone, Copy)]
pub struct HeaderRead {
    pub answer: Answer,
    pub header: Header,
}

// What reading gives, with zeros beside a refusal.
#[derive(Clone, Copy)]
pub struct Read {
    pub answer: Answer,
    pub header: Header,
    pub size: usize,
}

// What writing gives: the length written, zero beside a refusal.
#[derive(Clone, Copy)]
pub struct Written {
    pub answer: Made,
    pub length: usize,
}

// What the rate of an index is.
#[derive(Clone, Copy)]
pub struct Rated {
    pub answer: Answer,
    pub hertz: u32,
}
