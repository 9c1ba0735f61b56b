// Laying signed samples of 16 bits.
#![tactic(auto)]

ghost use Rattle.std.specs.Prelude.{◌≡◌, ◌+◌, ◌*◌, ◌/◌, ◌%◌, ◌<◌, ◌≤◌, length};
ghost use Rattle.formats.specs.Formats.{signed16, size_of};
ghost use Rattle.sample_rules.specs.Bits.{slot_of};
ghost use Rattle.track_rules.specs.Records.{slot_bytes, laid_of, packet_slot};
ghost use Rattle.records.specs.Room.{HasRoom};
ghost use Rattle.records.specs.Frames.{half_of};
ghost use Rattle.lay16.specs.Rows.{in_row};

use records::laying;
use samples::slots::{Sample, Signed16};
use track_rules::RECORD;

const HALF: usize = RECORD / 2;

const HALF_FRAME: usize = 4 * Signed16::SIZE;

// The slot of one of a word's samples.
fn part(w: u32, p: u32) -> u32
    requires { 0 < p }
    ensures { (result ≡ slot_of signed16 (w / p % 65536)) × (result < 16777216) }
{
    Signed16::slot(w / p % 65536)
}

// Four samples in a row, half a frame of eight channels, as slots in a row.
fn half(d: &[u8], from: usize, out: &mut [u8])
    requires { (from + 4 * size_of signed16 ≤ length d.now) × (length out.old ≡ 4 * slot_bytes) }
    ensures { out.new ≡ half_of (in_row d.now from) }
{
    let v = words::get::<4>(d, from);
    let w = words::get::<4>(d, from + 4);
    records::put_half(out, part(v, 1), part(v, 65536), part(w, 1), part(w, 65536));
}

// Eight channels: every slot has a sample, so slots follow each other as samples do.
fn full(d: &[u8], from: usize, frames: usize, track: &mut [u8], place: usize)
    requires { HasRoom signed16 d.now from frames 8 track.old place }
    ensures { track.new ≡ laid_of track.old place frames (packet_slot signed16 d.now from 8) }
{
    for k in 0..frames * 2 {
        let a = (place * 2 + k) * HALF;
        let e = a + HALF;
        half(d, from + k * HALF_FRAME, &mut track[a..e]);
    }
}

pub fn lay(d: &[u8], from: usize, frames: usize, channels: usize, track: &mut [u8], place: usize)
    requires { HasRoom signed16 d.now from frames channels track.old place }
    ensures { track.new ≡ laid_of track.old place frames (packet_slot signed16 d.now from channels) }
{
    match channels {
        1 => laying::lay::<Signed16>(d, from, frames, 1, track, place),
        2 => laying::lay::<Signed16>(d, from, frames, 2, track, place),
        8 => full(d, from, frames, track, place),
        _ => laying::lay::<Signed16>(d, from, frames, channels, track, place),
    }
}
