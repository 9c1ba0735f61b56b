// What a take keeps and what following tells: types alone. The rules of document 01 are in specs/, their laws in proofs/.
#![tactic(auto)]

use answers::Answer;

// Whose datagrams a take follows.
#[derive(Clone, Copy, Default)]
pub struct Who {
    pub name: [u8; 16],
    pub address: u32,
}

// What the first packet accepted fixes.
#[derive(Clone, Copy, Default, PartialEq, Eq)]
pub struct Shape {
    pub rate: u8,
    pub channels: u16,
    pub format: u8,
}

// What places the next packet: N, and the counter and place of the newest one accepted.
#[derive(Clone, Copy, Default)]
pub struct Line {
    pub n: u16,
    pub newest: u32,
    pub place: usize,
}

// One stream being followed; shape and line are zero until it has begun.
#[derive(Clone, Copy, Default)]
pub struct Take {
    pub who: Who,
    pub begun: bool,
    pub shape: Shape,
    pub line: Line,
}

// What a packet is to a take by its counter: its first, newer than its newest, or late.
#[derive(Clone, Copy)]
pub enum Decision {
    Opening,
    Ahead,
    Late,
}

#[derive(Clone, Copy)]
pub struct Opened {
    pub answer: Answer,
    pub take: Take,
}

// What following tells of a datagram: zeros beside a refusal.
#[derive(Clone, Copy)]
pub struct Told {
    pub answer: Answer,
    pub place: usize,
    pub frames: u16,
    pub skipped: u32,
}

// The same, with the take after it.
#[derive(Clone, Copy)]
pub struct Followed {
    pub told: Told,
    pub take: Take,
}

// One count for each answer of following.
#[derive(Clone, Copy, Default)]
pub struct Tally {
    pub counts: [u32; 17],
}

// What following gives with the tally.
#[derive(Clone, Copy)]
pub struct Tallied {
    pub followed: Followed,
    pub tally: Tally,
}
