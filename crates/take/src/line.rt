// A take's line: what a packet's counter makes of it, its place, and the line after it.
ghost use Rattle.std.specs.Prelude.{◌≡◌, ◌+◌, ◌*◌, ◌^◌, ◌<◌, true, false, nat_lt};
ghost use Rattle.take_rules.specs.Line.{distance, ahead_place, next_for};
ghost use Rattle.take_rules.specs.Follow.{decided, place_of, skipped_of, late};

use take_rules::{Decision, Line, Take};
use wire_rules::Header;

// d: a packet's counter less the newest.
fn distance(t: Take, h: Header) -> u32
    ensures { result ≡ distance t.line h.counter h.frames }
{
    crate::counter::distance(h.counter, t.line.newest)
}

pub fn decide(t: Take, h: Header) -> Decision
    ensures { result ≡ decided t h }
{
    if !t.begun {
        Decision::Opening
    } else if crate::counter::is_newer(distance(t, h)) {
        Decision::Ahead
    } else {
        Decision::Late
    }
}

pub(crate) fn is_late(t: Take, h: Header) -> bool
    ensures { result ≡ late t h }
{
    matches!(decide(t, h), Decision::Late)
}

// How far a packet ahead lies from the newest: d x N frames.
fn frames_on(t: Take, h: Header) -> usize
    ensures { (result ≡ distance t.line h.counter h.frames * t.line.n) × (result < 2 ^ 48) }
{
    distance(t, h) as usize * usize::from(t.line.n)
}

// Whether place and frames exceed the records held. Nothing is added to the newest place, which may be any number.
fn is_ahead_beyond(t: Take, h: Header, held: usize) -> bool
    ensures { result ≡ nat_lt held (ahead_place t.line h.counter h.frames + h.frames) }
{
    let end = frames_on(t, h) + usize::from(h.frames);
    held < end || held - end < t.line.place
}

pub(crate) fn is_beyond(t: Take, h: Header, held: usize) -> bool
    ensures { result ≡ nat_lt held (place_of t h + h.frames) }
{
    match decide(t, h) {
        Decision::Ahead => is_ahead_beyond(t, h, held),
        Decision::Opening | Decision::Late => held < usize::from(h.frames),
    }
}

// The place of a packet that fits.
pub fn place_of(t: Take, h: Header) -> usize
    requires { place_of t h < 2 ^ 64 }
    ensures { result ≡ place_of t h }
{
    match decide(t, h) {
        Decision::Ahead => t.line.place + frames_on(t, h),
        Decision::Opening | Decision::Late => 0,
    }
}

// The packets skipped before a packet.
pub fn skipped(t: Take, h: Header) -> u32
    ensures { result ≡ skipped_of t h }
{
    match decide(t, h) {
        Decision::Ahead => distance(t, h) - 1,
        Decision::Opening | Decision::Late => 0,
    }
}

// The line after a packet at `place`.
pub(crate) fn next(t: Take, h: Header, place: usize) -> Line
    requires { place ≡ place_of t h }
    ensures { result ≡ next_for t.line h.counter h.frames (decided t h) }
{
    match decide(t, h) {
        Decision::Opening => Line {
            n: h.frames,
            newest: h.counter,
            place,
        },
        Decision::Ahead => Line {
            newest: h.counter,
            place,
            ..t.line
        },
        Decision::Late => t.line,
    }
}
