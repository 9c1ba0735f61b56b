// Samples joined in a word of four bytes: stores of one would not be joined.
ghost use Rattle.std.specs.Prelude.{◌≡◌, ◌∷◌, [], ◌+◌, ◌%◌, ◌<◌};
ghost use Rattle.std.specs.Int.Bits.{bit_xor};
ghost use Rattle.lists.specs.Little.{bytes_of};

// Four bytes plus 128 each, at once: the top bit of each is all that differs.
fn flipped(w: u32) -> u32
    ensures { result ≡ bit_xor w 0x80808080 }
{
    w ^ 0x80808080
}

// Four samples of 8 bits, which come less 128.
#[tactic(auto, using(crate::proofs::Joins::four_bytes))]
pub fn four(v: u32, w: u32, x: u32, y: u32) -> u32
    requires { (v < 256) × (w < 256) × (x < 256) × (y < 256) }
    ensures { bytes_of 4 result ≡ (v + 128) % 256 ∷ (w + 128) % 256 ∷ (x + 128) % 256 ∷ (y + 128) % 256 ∷ [] }
{
    flipped(v + w * 256 + x * 65536 + y * 16777216)
}
