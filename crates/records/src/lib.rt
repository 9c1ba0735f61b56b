// A record of a track: stored from its slots, and read slot by slot.
#![tactic(auto)]

ghost use Rattle.std.specs.Prelude.{◌≡◌, ◌∷◌, [], ◌+◌, ◌*◌, ◌<◌, ◌≤◌, length};
ghost use Rattle.lists.specs.Lists.{byte};
ghost use Rattle.lists.specs.Little.{little};
ghost use Rattle.track_rules.specs.Records.{record_bytes, slot_bytes, record_of};
ghost use Rattle.records.specs.Frames.{half_of};

pub mod laying;
pub mod taken;

// Eight slots, as three words: stores of three bytes would not be joined.
pub fn put_record(
    out: &mut [u8],
    c0: u64,
    c1: u64,
    c2: u64,
    c3: u64,
    c4: u64,
    c5: u64,
    c6: u64,
    c7: u64,
)
    requires { (length out.old ≡ record_bytes) × (c0 < 16777216) × (c1 < 16777216) × (c2 < 16777216) × (c3 < 16777216) × (c4 < 16777216) × (c5 < 16777216) × (c6 < 16777216) × (c7 < 16777216) }
    ensures { out.new ≡ record_of (byte (c0 ∷ c1 ∷ c2 ∷ c3 ∷ c4 ∷ c5 ∷ c6 ∷ c7 ∷ [])) }
{
    words::put8(
        &mut out[0..8],
        c0 + c1 * 16777216 + c2 % 65536 * 281474976710656,
    );
    words::put8(
        &mut out[8..16],
        c2 / 65536 + c3 * 256 + c4 * 4294967296 + c5 % 256 * 72057594037927936,
    );
    words::put8(&mut out[16..24], c5 / 256 + c6 * 65536 + c7 * 1099511627776);
}

// Four slots, as three words of four bytes.
pub fn put_half(out: &mut [u8], c0: u32, c1: u32, c2: u32, c3: u32)
    requires { (length out.old ≡ 4 * slot_bytes) × (c0 < 16777216) × (c1 < 16777216) × (c2 < 16777216) × (c3 < 16777216) }
    ensures { out.new ≡ half_of (byte (c0 ∷ c1 ∷ c2 ∷ c3 ∷ [])) }
{
    words::put::<4>(&mut out[0..4], c0 + c1 % 256 * 16777216);
    words::put::<4>(&mut out[4..8], c1 / 256 + c2 % 65536 * 65536);
    words::put::<4>(&mut out[8..12], c2 / 65536 + c3 * 256);
}

// Slot `c` of the record at `at` by one read of four bytes: the last slot's starts a byte early.
pub fn slot(t: &[u8], at: usize, c: usize) -> u32
    requires { (c < 8) × (at + record_bytes ≤ length t.now) }
    ensures { (result ≡ little slot_bytes t.now (at + c * slot_bytes)) × (result < 16777216) }
{
    if c < 7 {
        return words::get::<4>(t, at + c * 3) % 16777216;
    }
    words::get::<4>(t, at + 20) / 256
}
