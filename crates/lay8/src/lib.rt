// Laying unsigned samples of 8 bits.
#![tactic(auto)]

ghost use Rattle.std.specs.Prelude.{◌≡◌, ◌+◌, ◌*◌, ◌/◌, ◌%◌, ◌<◌, ◌≤◌, length};
ghost use Rattle.std.specs.Int.Bits.{bit_xor};
ghost use Rattle.formats.specs.Formats.{unsigned8, size_of};
ghost use Rattle.sample_rules.specs.Bits.{slot_of};
ghost use Rattle.track_rules.specs.Records.{record_bytes, record_of, laid_of, frame_slot, packet_slot};
ghost use Rattle.records.specs.Room.{HasRoom};

use records::laying;
use samples::slots;
use samples::slots::{Sample, Unsigned8};
use track_rules::RECORD;

// The bytes of a frame of eight channels.
const FULL_FRAME: usize = 8 * Unsigned8::SIZE;

// Eight bytes less 128 each, as signed ones: at once, since the top bit of each is all that differs.
fn centred(w: u64) -> u64
    ensures { result ≡ bit_xor w 0x8080808080808080 }
{
    w ^ 0x8080808080808080
}

// The slot of one of a word's signed bytes.
fn part(w: u64, p: u64) -> u64
    requires { 0 < p }
    ensures { (result ≡ slot_of unsigned8 ((w / p % 256 + 128) % 256)) × (result < 16777216) }
{
    u64::from(slots::from_signed8((w / p % 256) as u32))
}

// A frame of eight channels is one word.
fn full_frame(d: &[u8], from: usize, out: &mut [u8])
    requires { (from + 8 * size_of unsigned8 ≤ length d.now) × (length out.old ≡ record_bytes) }
    ensures { out.new ≡ record_of (frame_slot unsigned8 d.now from 8) }
{
    let w = centred(words::get8(d, from));
    records::put_record(
        out,
        part(w, 1),
        part(w, 256),
        part(w, 65536),
        part(w, 16777216),
        part(w, 4294967296),
        part(w, 1099511627776),
        part(w, 281474976710656),
        part(w, 72057594037927936),
    );
}

// Eight channels: a loop of its own, over frames read at once.
fn full(d: &[u8], from: usize, frames: usize, track: &mut [u8], place: usize)
    requires { HasRoom unsigned8 d.now from frames 8 track.old place }
    ensures { track.new ≡ laid_of track.old place frames (packet_slot unsigned8 d.now from 8) }
{
    for k in 0..frames {
        let a = (place + k) * RECORD;
        let e = a + RECORD;
        full_frame(d, from + k * FULL_FRAME, &mut track[a..e]);
    }
}

pub fn lay(d: &[u8], from: usize, frames: usize, channels: usize, track: &mut [u8], place: usize)
    requires { HasRoom unsigned8 d.now from frames channels track.old place }
    ensures { track.new ≡ laid_of track.old place frames (packet_slot unsigned8 d.now from channels) }
{
    match channels {
        1 => laying::lay::<Unsigned8>(d, from, frames, 1, track, place),
        2 => laying::lay::<Unsigned8>(d, from, frames, 2, track, place),
        8 => full(d, from, frames, track, place),
        _ => laying::lay::<Unsigned8>(d, from, frames, channels, track, place),
    }
}
