// Laying a packet's frames sample by sample, over the type of the samples.
#![tactic(auto)]

ghost use Rattle.std.specs.Prelude.{◌≡◌, ◌+◌, ◌*◌, ◌<◌, ◌≤◌, length};
ghost use Rattle.formats.specs.Formats.{size_of};
ghost use Rattle.track_rules.specs.Records.{record_bytes, record_of, laid_of, frame_slot, packet_slot};
ghost use Rattle.records.specs.Room.{HasRoom};

use samples::slots::Sample;
use track_rules::RECORD;

// Slot `c` of the frame at `from`.
fn slot<S: Sample>(d: &[u8], from: usize, channels: usize, c: usize) -> u64
    requires { (channels ≤ 8) × (from + channels * size_of S.format ≤ length d.now) }
    ensures { (result ≡ frame_slot S.format d.now from channels c) × (result < 16777216) }
{
    if c < channels {
        return u64::from(S::slot(S::get(d, from + c * S::SIZE)));
    }
    0
}

// All slots are read before any is stored: nothing tells the compiler that the slices are apart.
fn frame<S: Sample>(d: &[u8], from: usize, channels: usize, out: &mut [u8])
    requires { (channels ≤ 8) × (from + channels * size_of S.format ≤ length d.now) × (length out.old ≡ record_bytes) }
    ensures { out.new ≡ record_of (frame_slot S.format d.now from channels) }
{
    crate::put_record(
        out,
        slot::<S>(d, from, channels, 0),
        slot::<S>(d, from, channels, 1),
        slot::<S>(d, from, channels, 2),
        slot::<S>(d, from, channels, 3),
        slot::<S>(d, from, channels, 4),
        slot::<S>(d, from, channels, 5),
        slot::<S>(d, from, channels, 6),
        slot::<S>(d, from, channels, 7),
    );
}

// A frame a turn. Called with a literal count, the tests on it fold away.
pub fn lay<S: Sample>(
    d: &[u8],
    from: usize,
    frames: usize,
    channels: usize,
    track: &mut [u8],
    place: usize,
)
    requires { HasRoom S.format d.now from frames channels track.old place }
    ensures { track.new ≡ laid_of track.old place frames (packet_slot S.format d.now from channels) }
{
    let step = channels * S::SIZE;
    for k in 0..frames {
        let a = (place + k) * RECORD;
        let e = a + RECORD;
        frame::<S>(d, from + k * step, channels, &mut track[a..e]);
    }
}
