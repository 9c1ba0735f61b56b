// Laying signed samples of 24 bits.
#![tactic(auto)]

ghost use Rattle.std.specs.Prelude.{◌≡◌, ◌+◌, ◌*◌, ◌≤◌, length};
ghost use Rattle.formats.specs.Formats.{signed24, size_of};
ghost use Rattle.track_rules.specs.Records.{record_bytes, record_of, laid_of, frame_slot, packet_slot};
ghost use Rattle.records.specs.Room.{HasRoom};

use records::laying;
use samples::slots::{Sample, Signed24};
use track_rules::RECORD;

// The bytes of a frame of two channels.
const PAIR_FRAME: usize = 2 * Signed24::SIZE;

// A frame of two channels is six bytes, which are the record's first: one word, and two that are 0.
fn pair_frame(d: &[u8], from: usize, out: &mut [u8])
    requires { (from + 2 * size_of signed24 ≤ length d.now) × (length out.old ≡ record_bytes) }
    ensures { out.new ≡ record_of (frame_slot signed24 d.now from 2) }
{
    let w = u64::from(words::get::<4>(d, from))
        + u64::from(words::get::<2>(d, from + 4)) * 4294967296;
    words::put8(&mut out[0..8], w);
    words::put8(&mut out[8..16], 0);
    words::put8(&mut out[16..24], 0);
}

// Two channels: a loop of its own, over frames read at once.
fn pairs(d: &[u8], from: usize, frames: usize, track: &mut [u8], place: usize)
    requires { HasRoom signed24 d.now from frames 2 track.old place }
    ensures { track.new ≡ laid_of track.old place frames (packet_slot signed24 d.now from 2) }
{
    for k in 0..frames {
        let a = (place + k) * RECORD;
        let e = a + RECORD;
        pair_frame(d, from + k * PAIR_FRAME, &mut track[a..e]);
    }
}

// Eight channels of 24 bits are the record, byte for byte.
fn full(d: &[u8], from: usize, frames: usize, track: &mut [u8], place: usize)
    requires { HasRoom signed24 d.now from frames 8 track.old place }
    ensures { track.new ≡ laid_of track.old place frames (packet_slot signed24 d.now from 8) }
{
    words::copy(d, from, frames * RECORD, track, place * RECORD);
}

pub fn lay(d: &[u8], from: usize, frames: usize, channels: usize, track: &mut [u8], place: usize)
    requires { HasRoom signed24 d.now from frames channels track.old place }
    ensures { track.new ≡ laid_of track.old place frames (packet_slot signed24 d.now from channels) }
{
    match channels {
        1 => laying::lay::<Signed24>(d, from, frames, 1, track, place),
        2 => pairs(d, from, frames, track, place),
        8 => full(d, from, frames, track, place),
        _ => laying::lay::<Signed24>(d, from, frames, channels, track, place),
    }
}
