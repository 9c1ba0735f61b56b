// A track lent to the box: how many records it holds, clearing it, and laying a packet's frames in it.
#![tactic(auto)]

ghost use Rattle.std.specs.Prelude.{◌≡◌};
ghost use Rattle.formats.specs.declared.Format.TheVariants.{Whole};
ghost use Rattle.track_rules.specs.Records.{records_held, cleared_of, laid_of, packet_slot};
ghost use Rattle.records.specs.Room.{HasRoom};

use formats::Integer;
use samples::slots::Signed32;
use track_rules::RECORD;

// How many whole records the track holds.
pub fn held(track: &[u8]) -> usize
    ensures { result ≡ records_held track.now }
{
    track.len() / RECORD
}

// Clears all whole records. Byte by byte, which becomes one call that clears memory.
pub fn clear(track: &mut [u8])
    ensures { track.new ≡ cleared_of track.old }
{
    let end = track.len() / RECORD * RECORD;
    for i in 0..end {
        track[i] = 0;
    }
}

// Lays frames of a packet's data, which start at byte `from`, at a place of the track: each type by its own loops.
pub fn lay(
    f: Integer,
    d: &[u8],
    from: usize,
    frames: usize,
    channels: usize,
    track: &mut [u8],
    place: usize,
)
    requires { HasRoom (Whole f) d.now from frames channels track.old place }
    ensures { track.new ≡ laid_of track.old place frames (packet_slot (Whole f) d.now from channels) }
{
    match f {
        Integer::Unsigned8 => lay8::lay(d, from, frames, channels, track, place),
        Integer::Signed16 => lay16::lay(d, from, frames, channels, track, place),
        Integer::Signed24 => lay24::lay(d, from, frames, channels, track, place),
        Integer::Signed32 => {
            lay_blocks::lay::<Signed32>(d, from, frames, channels, track, place)
        }
    }
}
