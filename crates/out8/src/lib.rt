// Taking unsigned samples of 8 bits out.
#![tactic(auto)]

ghost use Rattle.std.specs.Prelude.{◌≡◌, ◌+◌, ◌*◌, ◌%◌, ◌<◌, ◌≤◌, length};
ghost use Rattle.formats.specs.Formats.{unsigned8, size_of};
ghost use Rattle.lists.specs.Lists.{put};
ghost use Rattle.lists.specs.Little.{bytes_of};
ghost use Rattle.track_rules.specs.Records.{record_bytes, taken_of};
ghost use Rattle.records.specs.Frames.{sent_at, frame_out, frames_out, run_out, CanTake};

use records::taken;
use samples::slots;
use samples::slots::Unsigned8;
use track_rules::RECORD;

mod join;

// Slot `c` of the record at `at` as a sample less 128, for samples that go into a word.
#[tactic(auto, using(records::proofs::Taking::sent))]
fn centred(track: &[u8], at: usize, c: usize) -> u32
    requires { (c < 8) × (at + record_bytes ≤ length track.now) }
    ensures { ((result + 128) % 256 ≡ sent_at unsigned8 track.now at c) × (result < 256) }
{
    slots::to_signed8(records::slot(track, at, c))
}

// Four frames of one channel as a word.
#[tactic(auto, using(crate::proofs::Joins::four_frames))]
fn four_frames(track: &[u8], at: usize) -> u32
    requires { at + 4 * record_bytes ≤ length track.now }
    ensures { bytes_of 4 result ≡ frames_out unsigned8 track.now at record_bytes 4 1 }
{
    let v = centred(track, at, 0);
    let w = centred(track, at + RECORD, 0);
    let x = centred(track, at + 2 * RECORD, 0);
    let y = centred(track, at + 3 * RECORD, 0);
    join::four(v, w, x, y)
}

// Sixteen frames of one channel as four words, so that the compiler rounds four samples at once. All is read before any is stored:
// nothing tells it that the slices are apart.
fn sixteen_frames(track: &[u8], at: usize, out: &mut [u8])
    requires { (at + 16 * record_bytes ≤ length track.now) × (length out.old ≡ 16 * size_of unsigned8) }
    ensures { out.new ≡ frames_out unsigned8 track.now at record_bytes 16 1 }
{
    let v = four_frames(track, at);
    let w = four_frames(track, at + 4 * RECORD);
    let x = four_frames(track, at + 8 * RECORD);
    let y = four_frames(track, at + 12 * RECORD);
    words::put::<4>(&mut out[0..4], v);
    words::put::<4>(&mut out[4..8], w);
    words::put::<4>(&mut out[8..12], x);
    words::put::<4>(&mut out[12..16], y);
}

// Sixteen frames a turn, and those that are left. Where a turn reads is bounded by the end, which it never reaches: the compiler would
// else do four turns at once, no faster and with four times the code.
fn ones(track: &[u8], first: usize, frames: usize, out: &mut [u8], at: usize)
    requires { CanTake unsigned8 track.now first frames 1 out.old at }
    ensures { out.new ≡ put out.old at (taken_of unsigned8 track.now first frames 1) }
{
    let count = frames / 16;
    let end = (first + frames) * RECORD;
    for k in 0..count {
        let from = ((first + k * 16) * RECORD).min(end);
        let a = at + k * 16;
        let e = a + 16;
        sixteen_frames(track, from, &mut out[a..e]);
    }
    let done = count * 16;
    taken::some::<Unsigned8>(track, first + done, frames % 16, 1, out, at + done);
}

// Two frames of two channels as a word.
#[tactic(auto, using(crate::proofs::Joins::two_pairs))]
fn two_frames(track: &[u8], at: usize) -> u32
    requires { at + 2 * record_bytes ≤ length track.now }
    ensures { bytes_of 4 result ≡ frames_out unsigned8 track.now at record_bytes 2 2 }
{
    let v = centred(track, at, 0);
    let w = centred(track, at, 1);
    let x = centred(track, at + RECORD, 0);
    let y = centred(track, at + RECORD, 1);
    join::four(v, w, x, y)
}

// Two frames a turn, and the one that may be left.
fn pairs(track: &[u8], first: usize, frames: usize, out: &mut [u8], at: usize)
    requires { CanTake unsigned8 track.now first frames 2 out.old at }
    ensures { out.new ≡ put out.old at (taken_of unsigned8 track.now first frames 2) }
{
    let count = frames / 2;
    for k in 0..count {
        let v = two_frames(track, (first + k * 2) * RECORD);
        let a = at + k * 4;
        let e = a + 4;
        words::put::<4>(&mut out[a..e], v);
    }
    taken::some::<Unsigned8>(track, first + count * 2, frames % 2, 2, out, at + count * 4);
}

// Four channels as a word.
#[tactic(auto, using(crate::proofs::Joins::four_channels))]
fn four(track: &[u8], at: usize, c: usize) -> u32
    requires { (c + 4 ≤ 8) × (at + record_bytes ≤ length track.now) }
    ensures { bytes_of 4 result ≡ run_out unsigned8 track.now at c 4 }
{
    let v = centred(track, at, c);
    let w = centred(track, at, c + 1);
    let x = centred(track, at, c + 2);
    let y = centred(track, at, c + 3);
    join::four(v, w, x, y)
}

// Frames of eight channels are straight-line code: the loop over the channels would not unroll at eight. All is read before any is
// stored: nothing tells the compiler that the slices are apart.
fn full_frame(track: &[u8], at: usize, out: &mut [u8])
    requires { (at + record_bytes ≤ length track.now) × (length out.old ≡ 8 * size_of unsigned8) }
    ensures { out.new ≡ frame_out unsigned8 track.now at 8 }
{
    let v = four(track, at, 0);
    let w = four(track, at, 4);
    words::put::<4>(&mut out[0..4], v);
    words::put::<4>(&mut out[4..8], w);
}

fn full(track: &[u8], first: usize, frames: usize, out: &mut [u8], at: usize)
    requires { CanTake unsigned8 track.now first frames 8 out.old at }
    ensures { out.new ≡ put out.old at (taken_of unsigned8 track.now first frames 8) }
{
    for k in 0..frames {
        let a = at + k * 8;
        let e = a + 8;
        full_frame(track, (first + k) * RECORD, &mut out[a..e]);
    }
}

pub fn take_out(
    track: &[u8],
    first: usize,
    frames: usize,
    channels: usize,
    out: &mut [u8],
    at: usize,
)
    requires { CanTake unsigned8 track.now first frames channels out.old at }
    ensures { out.new ≡ put out.old at (taken_of unsigned8 track.now first frames channels) }
{
    match channels {
        1 => ones(track, first, frames, out, at),
        2 => pairs(track, first, frames, out, at),
        8 => full(track, first, frames, out, at),
        _ => taken::some::<Unsigned8>(track, first, frames, channels, out, at),
    }
}
