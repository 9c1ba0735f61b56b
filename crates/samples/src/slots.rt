// Each wire type's sample as a slot, and a slot as each wire type's sample, bits to bits: the track's loops call these.
ghost use Rattle.std.specs.Prelude.{◌≡◌, ℕ, ◌+◌, ◌-◌, ◌%◌, ◌^◌, ◌≤◌, ◌<◌, length, refl};
ghost use Rattle.std.proofs.Math.IntN.{sub_ℕ};
ghost use Rattle.lists.specs.Little.{little, bytes_of};
ghost use Rattle.formats.specs.declared.Format.{Format};
ghost use Rattle.formats.specs.Formats.{unsigned8, signed16, signed24, signed32, size_of};
ghost use Rattle.sample_rules.specs.Convert.{rank, rescaled};
ghost use Rattle.sample_rules.specs.Bits.{signed_of, bits_of, slot_of, sent_of};

use crate::numbers;

// A signed sample of `w` bits as one of `v` bits.
fn moved(u: u32, w: u32, v: u32) -> u32
    requires { (2 ≤ w) × (w ≤ 32) × (2 ≤ v) × (v ≤ 32) × (u < 2 ^ w) }
    ensures { (result ≡ bits_of v (sub_ℕ (rescaled w v (rank (2 ^ (w - 1)) (signed_of w u))) (2 ^ (v - 1)))) × (result < 2 ^ v) }
{
    numbers::bits(numbers::rescale(numbers::signed(u, w), w, v), v)
}

// The slot of a byte that comes less 128, as a signed one: a caller may take 128 from all the bytes of a word at once.
pub fn from_signed8(u: u32) -> u32
    requires { u < 2 ^ 8 }
    ensures { (result ≡ slot_of unsigned8 ((u + 128) % 256)) × (result < 2 ^ 24) }
{
    moved(u, 8, 24)
}

// A slot as a byte less 128, a signed one: a caller may add 128 to all the bytes of a word at once.
pub fn to_signed8(s: u32) -> u32
    requires { s < 2 ^ 24 }
    ensures { ((result + 128) % 256 ≡ sent_of unsigned8 s) × (result < 2 ^ 8) }
{
    moved(s * 256, 32, 8)
}

// A data type whose samples have slots, and how its samples lie in bytes. What is the same for all types is written once, over this.
pub trait Sample {
    ghost format: { Format };

    // The bytes of a sample.
    ghost SIZE: { ℕ };

    const SIZE: usize;

    // The sample at byte `a`, as its bits.
    fn get(d: &[u8], a: usize) -> u32
        requires { a + SIZE ≤ length d.now }
        ensures { (result ≡ little SIZE d.now a) × (result < 256 ^ SIZE) };

    // A sample's bits, as bytes.
    fn put(out: &mut [u8], u: u32)
        requires { (length out.old ≡ SIZE) × (u < 256 ^ SIZE) }
        ensures { out.new ≡ bytes_of SIZE u };

    // The slot of a sample.
    fn slot(u: u32) -> u32
        requires { u < 256 ^ SIZE }
        ensures { (result ≡ slot_of format u) × (result < 2 ^ 24) };

    // A slot as a sample. It is narrowed from the top of 32 bits, where its sign stands already.
    fn sent(s: u32) -> u32
        requires { s < 2 ^ 24 }
        ensures { (result ≡ sent_of format s) × (result < 256 ^ SIZE) };

    ghost sized: { SIZE ≡ size_of format };
}

pub struct Unsigned8;

impl Sample for Unsigned8 {
    ghost format = { unsigned8 };

    ghost SIZE = { 1 };

    ghost sized = { refl };

    const SIZE: usize = 1;

    fn get(d: &[u8], a: usize) -> u32 {
        words::get::<1>(d, a)
    }

    fn put(out: &mut [u8], u: u32) {
        words::put::<1>(out, u)
    }

    fn slot(u: u32) -> u32 {
        from_signed8((u + 128) % 256)
    }

    fn sent(s: u32) -> u32 {
        (to_signed8(s) + 128) % 256
    }
}

pub struct Signed16;

impl Sample for Signed16 {
    ghost format = { signed16 };

    ghost SIZE = { 2 };

    ghost sized = { refl };

    const SIZE: usize = 2;

    fn get(d: &[u8], a: usize) -> u32 {
        words::get::<2>(d, a)
    }

    fn put(out: &mut [u8], u: u32) {
        words::put::<2>(out, u)
    }

    fn slot(u: u32) -> u32 {
        moved(u, 16, 24)
    }

    fn sent(s: u32) -> u32 {
        moved(s * 256, 32, 16)
    }
}

pub struct Signed24;

impl Sample for Signed24 {
    ghost format = { signed24 };

    ghost SIZE = { 3 };

    ghost sized = { refl };

    const SIZE: usize = 3;

    // As a sum of bytes: read by `words::get`, 3 to 7 channels would be laid more slowly.
    fn get(d: &[u8], a: usize) -> u32 {
        u32::from(d[a]) + u32::from(d[a + 1]) * 256 + u32::from(d[a + 2]) * 65536
    }

    fn put(out: &mut [u8], u: u32) {
        words::put::<3>(out, u)
    }

    fn slot(u: u32) -> u32 {
        u
    }

    fn sent(s: u32) -> u32 {
        s
    }
}

pub struct Signed32;

impl Sample for Signed32 {
    ghost format = { signed32 };

    ghost SIZE = { 4 };

    ghost sized = { refl };

    const SIZE: usize = 4;

    fn get(d: &[u8], a: usize) -> u32 {
        words::get::<4>(d, a)
    }

    fn put(out: &mut [u8], u: u32) {
        words::put::<4>(out, u)
    }

    fn slot(u: u32) -> u32 {
        moved(u, 32, 24)
    }

    fn sent(s: u32) -> u32 {
        moved(s, 24, 32)
    }
}
