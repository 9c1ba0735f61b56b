// Taking signed samples of 16 bits out.
#![tactic(auto)]

ghost use Rattle.std.specs.Prelude.{◌≡◌, ◌++◌, ◌+◌, ◌*◌, ◌<◌, ◌≤◌, length};
ghost use Rattle.formats.specs.Formats.{signed16, size_of};
ghost use Rattle.lists.specs.Lists.{put};
ghost use Rattle.lists.specs.Little.{bytes_of};
ghost use Rattle.track_rules.specs.Records.{record_bytes, taken_of};
ghost use Rattle.records.specs.Frames.{frame_out, frames_out, run_out, CanTake};

use records::taken;
use samples::slots::Signed16;
use track_rules::RECORD;

// Two samples joined in a word of four bytes: stores of two would not be joined.
#[tactic(auto, using(crate::proofs::Joins::two_halves))]
fn two(v: u32, w: u32) -> u32
    requires { (v < 65536) × (w < 65536) }
    ensures { bytes_of 4 result ≡ bytes_of 2 v ++ bytes_of 2 w }
{
    v + w * 65536
}

// Two channels as a word.
#[tactic(auto, using(crate::proofs::Joins::two_channels))]
fn pair(track: &[u8], at: usize, c: usize) -> u32
    requires { (c + 2 ≤ 8) × (at + record_bytes ≤ length track.now) }
    ensures { bytes_of 4 result ≡ run_out signed16 track.now at c 2 }
{
    let v = taken::sample::<Signed16>(track, at, c);
    let w = taken::sample::<Signed16>(track, at, c + 1);
    two(v, w)
}

// Two channels: a frame is a word.
fn pairs(track: &[u8], first: usize, frames: usize, out: &mut [u8], at: usize)
    requires { CanTake signed16 track.now first frames 2 out.old at }
    ensures { out.new ≡ put out.old at (taken_of signed16 track.now first frames 2) }
{
    for k in 0..frames {
        let v = pair(track, (first + k) * RECORD, 0);
        let a = at + k * 4;
        let e = a + 4;
        words::put::<4>(&mut out[a..e], v);
    }
}

// Two frames of one channel as a word.
#[tactic(auto, using(crate::proofs::Joins::two_frames))]
fn two_frames(track: &[u8], at: usize) -> u32
    requires { at + 2 * record_bytes ≤ length track.now }
    ensures { bytes_of 4 result ≡ frames_out signed16 track.now at record_bytes 2 1 }
{
    let v = taken::sample::<Signed16>(track, at, 0);
    let w = taken::sample::<Signed16>(track, at + RECORD, 0);
    two(v, w)
}

// Two frames a turn, and the one that may be left.
fn ones(track: &[u8], first: usize, frames: usize, out: &mut [u8], at: usize)
    requires { CanTake signed16 track.now first frames 1 out.old at }
    ensures { out.new ≡ put out.old at (taken_of signed16 track.now first frames 1) }
{
    let count = frames / 2;
    for k in 0..count {
        let v = two_frames(track, (first + k * 2) * RECORD);
        let a = at + k * 4;
        let e = a + 4;
        words::put::<4>(&mut out[a..e], v);
    }
    taken::some::<Signed16>(track, first + count * 2, frames % 2, 1, out, at + count * 4);
}

// Frames of eight channels are straight-line code: the loop over the channels would not unroll at eight. All is read before any is
// stored: nothing tells the compiler that the slices are apart.
fn full_frame(track: &[u8], at: usize, out: &mut [u8])
    requires { (at + record_bytes ≤ length track.now) × (length out.old ≡ 8 * size_of signed16) }
    ensures { out.new ≡ frame_out signed16 track.now at 8 }
{
    let v = pair(track, at, 0);
    let w = pair(track, at, 2);
    let x = pair(track, at, 4);
    let y = pair(track, at, 6);
    words::put::<4>(&mut out[0..4], v);
    words::put::<4>(&mut out[4..8], w);
    words::put::<4>(&mut out[8..12], x);
    words::put::<4>(&mut out[12..16], y);
}

fn full(track: &[u8], first: usize, frames: usize, out: &mut [u8], at: usize)
    requires { CanTake signed16 track.now first frames 8 out.old at }
    ensures { out.new ≡ put out.old at (taken_of signed16 track.now first frames 8) }
{
    for k in 0..frames {
        let a = at + k * 16;
        let e = a + 16;
        full_frame(track, (first + k) * RECORD, &mut out[a..e]);
    }
}

pub fn take_out(
    track: &[u8],
    first: usize,
    frames: usize,
    channels: usize,
    out: &mut [u8],
    at: usize,
)
    requires { CanTake signed16 track.now first frames channels out.old at }
    ensures { out.new ≡ put out.old at (taken_of signed16 track.now first frames channels) }
{
    match channels {
        1 => ones(track, first, frames, out, at),
        2 => pairs(track, first, frames, out, at),
        8 => full(track, first, frames, out, at),
        // Of a literal count of channels the compiler narrows several samples at once.
        4 => taken::some::<Signed16>(track, first, frames, 4, out, at),
        5 => taken::some::<Signed16>(track, first, frames, 5, out, at),
        6 => taken::some::<Signed16>(track, first, frames, 6, out, at),
        7 => taken::some::<Signed16>(track, first, frames, 7, out, at),
        _ => taken::some::<Signed16>(track, first, frames, channels, out, at),
    }
}
