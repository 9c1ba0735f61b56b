// A take as the bytes that a caller in C keeps.
#![tactic(auto)]

ghost use Rattle.std.specs.Prelude.{◌≡◌, false, [], ◌∷◌, take as take_first, drop};
ghost use Rattle.lists.specs.Lists.{put};
ghost use Rattle.take_rules.specs.Follow.{place_of, changed_shape, late, followed_by};
ghost use Rattle.kept.specs.Kept.{kept_bytes, fixed_widths, fixed_values, newest_widths, tail_of, take_bytes, take_of};

use take_rules::{Line, Shape, Take, Who};
use wire_rules::Header;

// Where each number stands; the name's 16 bytes come before them.
const ADDRESS: usize = 16;

const BEGUN: usize = 20;

const RATE: usize = 21;

const FORMAT: usize = 22;

const SPARE: usize = 23;

const CHANNELS: usize = 24;

const FRAMES: usize = 26;

const NEWEST: usize = 28;

const PLACE: usize = 32;

pub const SIZE: usize = 40;

// The first 16 bytes: the take's name.
pub fn name(kept: &[u8; 40]) -> &[u8; 16]
    ensures { result.now ≡ take_first 16 kept.now }
{
    kept.first_chunk().unwrap()
}

// The take that the bytes are.
pub fn load(kept: &[u8; 40]) -> Take
    ensures { result ≡ take_of kept.now }
{
    Take {
        who: Who {
            name: *name(kept),
            address: words::get::<4>(kept, ADDRESS),
        },
        begun: kept[BEGUN] != 0,
        shape: Shape {
            rate: kept[RATE],
            channels: words::get::<2>(kept, CHANNELS) as u16,
            format: kept[FORMAT],
        },
        line: Line {
            n: words::get::<2>(kept, FRAMES) as u16,
            newest: words::get::<4>(kept, NEWEST),
            place: words::get8(kept, PLACE) as usize,
        },
    }
}

// The bytes from `BEGUN` to `NEWEST`.
fn middle(t: Take) -> [u8; 8]
    ensures { result ≡ kept_bytes (drop 1 fixed_widths) (drop 1 (fixed_values t)) }
{
    let begun = u8::from(t.begun);
    let [c0, c1] = t.shape.channels.to_le_bytes();
    let [n0, n1] = t.line.n.to_le_bytes();
    [begun, t.shape.rate, t.shape.format, 0, c0, c1, n0, n1]
}

// The newest counter and place.
fn store_newest(newest: u32, place: usize, kept: &mut [u8; 40])
    ensures { kept.new ≡ put kept.old 28 (kept_bytes newest_widths (newest ∷ place ∷ [])) }
{
    words::put::<4>(&mut kept[NEWEST..PLACE], newest);
    words::put8(&mut kept[PLACE..SIZE], place as u64);
}

// The bytes after the name.
fn store_tail(t: Take, kept: &mut [u8; 40])
    ensures { kept.new ≡ put kept.old 16 (tail_of t) }
{
    words::put::<4>(&mut kept[ADDRESS..BEGUN], t.who.address);
    words::place(&middle(t), kept, BEGUN);
    store_newest(t.line.newest, t.line.place, kept);
}

// The bytes of the take after a packet at `place`. Once begun, the newest counter and place are all that changes, where the bytes are as
// we write them.
pub fn store_followed(h: Header, place: usize, kept: &mut [u8; 40])
    requires { (place ≡ place_of (take_of kept.old) h) × (changed_shape (take_of kept.old) h ≡ false) × (late (take_of kept.old) h ≡ false) }
    ensures { kept.new ≡ put kept.old 16 (tail_of (followed_by (take_of kept.old) h)) }
{
    if kept[BEGUN] == 1 && kept[SPARE] == 0 {
        store_newest(h.counter, place, kept);
    } else {
        let t = load(kept);
        store_tail(take::follow::followed_by(t, h, place), kept);
    }
}

// A take's bytes over those that the caller keeps.
pub fn store(t: Take, kept: &mut [u8; 40])
    ensures { kept.new ≡ take_bytes t }
{
    words::place(&t.who.name, kept, 0);
    store_tail(t, kept);
}
