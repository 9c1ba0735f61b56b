// Laying by way of a block of slots, over the sample type. Samples of 32 bits are laid so.
#![tactic(auto)]

ghost use Rattle.std.specs.Prelude.{◌≡◌, ◌+◌, ◌*◌, ◌<◌, ◌≤◌, length};
ghost use Rattle.lists.specs.Lists.{put};
ghost use Rattle.formats.specs.Formats.{size_of};
ghost use Rattle.track_rules.specs.Records.{record_bytes, record_of, laid_of, packet_slot};
ghost use Rattle.records.specs.Room.{HasRoom};
ghost use Rattle.lay_blocks.specs.Blocks.{slots_from, Slots, block_slot, block_frames};

use samples::slots::Sample;
use track_rules::RECORD;

// The slots of a block: frames of eight channels, of two and of one fill it whole.
const BLOCK: usize = 128;

// Samples from byte `from` on, as slots.
fn fill<S: Sample>(d: &[u8], from: usize, n: usize, block: &mut [u32; BLOCK])
    requires { (from + n * size_of S.format ≤ length d.now) × (n ≤ 128) }
    ensures { block.new ≡ put block.old 0 (slots_from S.format d.now from n) }
{
    for i in 0..n {
        block[i] = S::slot(S::get(d, from + i * S::SIZE));
    }
}

// Slot `c` of the frame at `at` of the block.
fn slot(block: &[u32; BLOCK], at: usize, channels: usize, c: usize) -> u64
    requires { (at + channels ≤ 128) × Slots block.now }
    ensures { (result ≡ block_slot block.now at channels c) × (result < 16777216) }
{
    if c < channels {
        return u64::from(block[at + c]);
    }
    0
}

fn frame(block: &[u32; BLOCK], at: usize, channels: usize, out: &mut [u8])
    requires { (at + channels ≤ 128) × Slots block.now × (length out.old ≡ record_bytes) }
    ensures { out.new ≡ record_of (block_slot block.now at channels) }
{
    records::put_record(
        out,
        slot(block, at, channels, 0),
        slot(block, at, channels, 1),
        slot(block, at, channels, 2),
        slot(block, at, channels, 3),
        slot(block, at, channels, 4),
        slot(block, at, channels, 5),
        slot(block, at, channels, 6),
        slot(block, at, channels, 7),
    );
}

// A frame of the block a turn. Called with a literal count, the tests on it fold away.
fn lay_all(block: &[u32; BLOCK], frames: usize, channels: usize, track: &mut [u8], place: usize)
    requires { (frames * channels ≤ 128) × Slots block.now × (place * record_bytes + frames * record_bytes ≤ length track.old) }
    ensures { track.new ≡ laid_of track.old place frames (block_frames block.now channels) }
{
    for k in 0..frames {
        let a = (place + k) * RECORD;
        let e = a + RECORD;
        frame(block, k * channels, channels, &mut track[a..e]);
    }
}

// Frames of one block, or what is left of them, a turn.
fn blocks<S: Sample>(
    d: &[u8],
    from: usize,
    frames: usize,
    channels: usize,
    most: usize,
    track: &mut [u8],
    place: usize,
)
    requires { (1 ≤ most) × (most * channels ≤ 128) × HasRoom S.format d.now from frames channels track.old place }
    ensures { track.new ≡ laid_of track.old place frames (packet_slot S.format d.now from channels) }
{
    let step = channels * S::SIZE;
    let mut block = [0u32; BLOCK];
    let mut k = 0;
    while k < frames {
        let n = (frames - k).min(most);
        fill::<S>(d, from + k * step, n * channels, &mut block);
        lay_all(&block, n, channels, track, place + k);
        k += n;
    }
}

pub fn lay<S: Sample>(
    d: &[u8],
    from: usize,
    frames: usize,
    channels: usize,
    track: &mut [u8],
    place: usize,
)
    requires { HasRoom S.format d.now from frames channels track.old place }
    ensures { track.new ≡ laid_of track.old place frames (packet_slot S.format d.now from channels) }
{
    match channels {
        1 => blocks::<S>(d, from, frames, 1, 128, track, place),
        2 => blocks::<S>(d, from, frames, 2, 64, track, place),
        8 => blocks::<S>(d, from, frames, 8, 16, track, place),
        _ => blocks::<S>(d, from, frames, channels, 16, track, place),
    }
}
