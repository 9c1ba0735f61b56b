// The largest N.
ghost use Rattle.std.specs.Prelude.{◌≡◌, ◌*◌, ◌≤◌, nat_lt};
ghost use Rattle.formats.specs.Formats.{size_at};
ghost use Rattle.cutter_rules.specs.Largest.{largest_frames, largest_of};

use answers::Made;
use cutter_rules::Largest;
use formats::Format;

// The bytes of a frame.
fn frame_bytes(format: u8, channels: u16) -> usize
    ensures { (result ≡ channels * size_at format) × (result ≤ 65535 * 4) }
{
    usize::from(channels) * Format::size_at(format)
}

// The lesser of 256 and 1,436 divided by the frame's bytes; 0 where a frame has none.
fn frames(format: u8, channels: u16) -> u16
    ensures { result ≡ largest_frames format channels }
{
    let bytes = frame_bytes(format, channels);
    if bytes == 0 {
        return 0;
    }
    let n = wire_rules::DATA_MOST / bytes;
    // As a test and not by `min`: the compiler then divides only where it has to.
    if n > 256 {
        return 256;
    }
    n as u16
}

// Whether so many frames, of a form that a packet can have, are over the largest N: a product in place of a division.
pub(crate) fn is_over(frames: u16, format: u8, channels: u16) -> bool
    requires { (frames ≤ 256) × (1 ≤ channels * size_at format) }
    ensures { result ≡ nat_lt (largest_frames format channels) frames }
{
    let bytes = frame_bytes(format, channels);
    usize::from(frames) * bytes > wire_rules::DATA_MOST
}

// The most frames that a packet of the type and the channels can have.
pub fn largest(format: u8, channels: u16) -> Largest
    ensures { result ≡ largest_of format channels }
{
    if !Format::may_send(format) || lists::is_outside(channels, 256) {
        return Largest {
            answer: Made::Form,
            frames: 0,
        };
    }
    Largest {
        answer: Made::Done,
        frames: frames(format, channels),
    }
}
