// Taking signed samples of 24 bits out.
#![tactic(auto)]

ghost use Rattle.std.specs.Prelude.{◌≡◌, ◌+◌, ◌*◌, ◌≤◌, length, take, drop};
ghost use Rattle.formats.specs.Formats.{signed24};
ghost use Rattle.lists.specs.Lists.{put};
ghost use Rattle.track_rules.specs.Records.{taken_of};
ghost use Rattle.records.specs.Frames.{CanTake};

use records::taken;
use samples::slots::{Sample, Signed24};
use track_rules::RECORD;

// The first bytes of a record by one load and one store: four for one channel, eight for two.
fn store(track: &[u8], from: usize, channels: usize, out: &mut [u8], at: usize)
    requires { (1 ≤ channels) × (channels ≤ 2) × (from + channels * 4 ≤ length track.now) × (at + channels * 4 ≤ length out.old) }
    ensures { out.new ≡ put out.old at (take (channels * 4) (drop from track.now)) }
{
    if channels == 1 {
        let v = words::get::<4>(track, from);
        let m = at + 4;
        words::put::<4>(&mut out[at..m], v);
        return;
    }
    let w = words::get8(track, from);
    let e = at + 8;
    words::put8(&mut out[at..e], w);
}

// One channel or two: four frames a turn, each by one store that is longer than a frame. What it writes too much the next one writes
// over, so the last frames are written by themselves. Called with a literal count, the tests on it fold away.
fn few(track: &[u8], first: usize, frames: usize, channels: usize, out: &mut [u8], at: usize)
    requires { (1 ≤ channels) × (channels ≤ 2) × CanTake signed24 track.now first frames channels out.old at }
    ensures { out.new ≡ put out.old at (taken_of signed24 track.now first frames channels) }
{
    if frames == 0 {
        return;
    }
    let step = channels * Signed24::SIZE;
    let turns = (frames - 1) / 4;
    for k in 0..turns {
        let from = (first + k * 4) * RECORD;
        let a = at + k * 4 * step;
        store(track, from, channels, out, a);
        store(track, from + RECORD, channels, out, a + step);
        store(track, from + 2 * RECORD, channels, out, a + 2 * step);
        store(track, from + 3 * RECORD, channels, out, a + 3 * step);
    }
    let done = turns * 4;
    taken::some::<Signed24>(
        track,
        first + done,
        frames - done,
        channels,
        out,
        at + done * step,
    );
}

// Eight channels of 24 bits are the record, byte for byte.
fn full(track: &[u8], first: usize, frames: usize, out: &mut [u8], at: usize)
    requires { CanTake signed24 track.now first frames 8 out.old at }
    ensures { out.new ≡ put out.old at (taken_of signed24 track.now first frames 8) }
{
    words::copy(track, first * RECORD, frames * RECORD, out, at);
}

pub fn take_out(
    track: &[u8],
    first: usize,
    frames: usize,
    channels: usize,
    out: &mut [u8],
    at: usize,
)
    requires { CanTake signed24 track.now first frames channels out.old at }
    ensures { out.new ≡ put out.old at (taken_of signed24 track.now first frames channels) }
{
    match channels {
        1 => few(track, first, frames, 1, out, at),
        2 => few(track, first, frames, 2, out, at),
        8 => full(track, first, frames, out, at),
        _ => taken::some::<Signed24>(track, first, frames, channels, out, at),
    }
}
