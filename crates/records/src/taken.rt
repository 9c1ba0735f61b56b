// Taking out, of any type of sample: a slot as a sample, a frame, and frames one after the other.
ghost use Rattle.std.specs.Prelude.{◌≡◌, ◌+◌, ◌*◌, ◌^◌, ◌<◌, ◌≤◌, length};
ghost use Rattle.formats.specs.Formats.{size_of};
ghost use Rattle.lists.specs.Lists.{put};
ghost use Rattle.track_rules.specs.Records.{record_bytes, taken_of};
ghost use Rattle.records.specs.Frames.{sent_at, frame_out, CanTake};

use samples::slots::Sample;
use track_rules::RECORD;

// Slot `c` of the record at `at`, as a sample.
pub fn sample<S: Sample>(track: &[u8], at: usize, c: usize) -> u32
    requires { (c < 8) × (at + record_bytes ≤ length track.now) }
    ensures { (result ≡ sent_at S.format track.now at c) × (result < 256 ^ S.SIZE) }
{
    S::sent(crate::slot(track, at, c))
}

// The record at `at`, as a frame.
pub fn frame<S: Sample>(track: &[u8], at: usize, channels: usize, out: &mut [u8])
    requires { (channels ≤ 8) × (at + record_bytes ≤ length track.now) × (length out.old ≡ channels * size_of S.format) }
    ensures { out.new ≡ frame_out S.format track.now at channels }
{
    for c in 0..channels {
        let a = c * S::SIZE;
        let e = a + S::SIZE;
        let v = sample::<S>(track, at, c);
        S::put(&mut out[a..e], v);
    }
}

// A frame a turn. Called with a literal count, the loop over the channels folds away. Where a frame is read and written is carried from
// turn to turn: worked out of the turn's number it took up to half as long again.
pub fn some<S: Sample>(
    track: &[u8],
    first: usize,
    frames: usize,
    channels: usize,
    out: &mut [u8],
    at: usize,
)
    requires { CanTake S.format track.now first frames channels out.old at }
    ensures { out.new ≡ put out.old at (taken_of S.format track.now first frames channels) }
{
    let step = channels * S::SIZE;
    let mut from = first * RECORD;
    let mut a = at;
    for _ in 0..frames {
        let e = a + step;
        frame::<S>(track, from, channels, &mut out[a..e]);
        from += RECORD;
        a = e;
    }
}
