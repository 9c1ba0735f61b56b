// Which frames go into which packet.
ghost use Rattle.std.specs.Prelude.{◌≡◌, ◌*◌};
ghost use Rattle.cutter_rules.specs.Schedule.{schedule_of};
ghost use Rattle.cutter_rules.specs.Cut.{bad_number};

// The first frame of packet `k`.
pub(crate) fn from(n: u16, k: u32) -> usize
    ensures { result ≡ k * n }
{
    k as usize * usize::from(n)
}

// The frames of packet `k`: `n`, or what is left.
pub(crate) fn count(frames: usize, n: u16, k: u32) -> u16
    ensures { result ≡ (schedule_of frames n).count k }
{
    let left = frames.saturating_sub(from(n, k));
    left.min(usize::from(n)) as u16
}

// Whether there are no frames, more than 2^31 packets, or `k` is not below their number: products in place of a division.
pub(crate) fn bad_number(frames: usize, n: u16, k: u32) -> bool
    ensures { result ≡ bad_number (schedule_of frames n) frames k }
{
    frames == 0 || frames > from(n, 0x8000_0000) || frames <= from(n, k)
}
