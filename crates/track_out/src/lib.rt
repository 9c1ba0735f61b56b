// Frames of a track as packet data.
#![tactic(auto)]

ghost use Rattle.std.specs.Prelude.{◌≡◌, ◌+◌, ◌*◌, ◌≤◌, length};
ghost use Rattle.lists.specs.Lists.{put};
ghost use Rattle.formats.specs.declared.Format.TheVariants.{Whole};
ghost use Rattle.formats.specs.Formats.{whole_size};
ghost use Rattle.track_rules.specs.Records.{record_bytes, taken_of};

use formats::Integer;

// Takes frames out of the track from record `first` on, as a packet's data written over `out` from byte `at` on: each type by its own
// loops.
pub fn take_out(
    f: Integer,
    track: &[u8],
    first: usize,
    frames: usize,
    channels: usize,
    out: &mut [u8],
    at: usize,
)
    requires { (channels ≤ 8) × ((first + frames) * record_bytes ≤ length track.now) × (at + frames * (channels * whole_size f) ≤ length out.old) }
    ensures { out.new ≡ put out.old at (taken_of (Whole f) track.now first frames channels) }
{
    match f {
        Integer::Unsigned8 => out8::take_out(track, first, frames, channels, out, at),
        Integer::Signed16 => out16::take_out(track, first, frames, channels, out, at),
        Integer::Signed24 => out24::take_out(track, first, frames, channels, out, at),
        Integer::Signed32 => out32::take_out(track, first, frames, channels, out, at),
    }
}
