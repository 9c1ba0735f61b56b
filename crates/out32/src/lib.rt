// Taking signed samples of 32 bits out.
#![tactic(auto)]

ghost use Rattle.std.specs.Prelude.{◌≡◌, ◌+◌, ◌*◌, ◌/◌, ◌%◌, ◌≤◌, length};
ghost use Rattle.formats.specs.Formats.{signed32, size_of};
ghost use Rattle.lists.specs.Lists.{put};
ghost use Rattle.track_rules.specs.Records.{taken_of};
ghost use Rattle.sample_rules.specs.Bits.{sent_of};
ghost use Rattle.records.specs.Frames.{frames_out, CanTake};

use records::taken;
use samples::slots::{Sample, Signed32};
use track_rules::RECORD;

// The two slots in a word's highest six bytes, as samples in a word.
fn pair(w: u64) -> u64
    ensures { result ≡ sent_of signed32 (w / 65536 % 16777216) + sent_of signed32 (w / 1099511627776) * 4294967296 }
{
    let a = Signed32::sent((w / 65536 % 16777216) as u32);
    let b = Signed32::sent((w / 1099511627776) as u32);
    u64::from(a) + u64::from(b) * 4294967296
}

// Pairs of samples, every pair `step` bytes after the one before, each by one read and one store. With the two bytes before a pair its
// second slot stands where it is stored.
fn later(track: &[u8], start: usize, step: usize, count: usize, out: &mut [u8], at: usize)
    requires { (2 ≤ start) × (6 ≤ step) × (start + count * step ≤ length track.now) × (at + count * (2 * size_of signed32) ≤ length out.old) }
    ensures { out.new ≡ put out.old at (frames_out signed32 track.now start step count 2) }
{
    for k in 0..count {
        let w = pair(words::get8(track, start + k * step - 2));
        let a = at + k * 8;
        let e = a + 8;
        words::put8(&mut out[a..e], w);
    }
}

// The same where no bytes may stand before the first pair, which is read with the two bytes after it.
fn pairs(track: &[u8], start: usize, step: usize, count: usize, out: &mut [u8], at: usize)
    requires le_count { (1 ≤ count) × (start + 8 ≤ length track.now) }
    requires le_step { (6 ≤ step) × (start + count * step ≤ length track.now) × (at + count * (2 * size_of signed32) ≤ length out.old) }
    ensures { out.new ≡ put out.old at (frames_out signed32 track.now start step count 2) }
{
    let w = pair(words::get8(track, start) % 281474976710656 * 65536);
    let e = at + 8;
    words::put8(&mut out[at..e], w);
    later(track, start + step, step, count - 1, out, e);
}

pub fn take_out(
    track: &[u8],
    first: usize,
    frames: usize,
    channels: usize,
    out: &mut [u8],
    at: usize,
)
    requires { CanTake signed32 track.now first frames channels out.old at }
    ensures { out.new ≡ put out.old at (taken_of signed32 track.now first frames channels) }
{
    if frames == 0 {
        return;
    }
    match channels {
        1 => taken::some::<Signed32>(track, first, frames, 1, out, at),
        2 => pairs(track, first * RECORD, RECORD, frames, out, at),
        // Eight channels are pairs side by side through all records.
        8 => pairs(track, first * RECORD, 6, frames * 4, out, at),
        _ => taken::some::<Signed32>(track, first, frames, channels, out, at),
    }
}
