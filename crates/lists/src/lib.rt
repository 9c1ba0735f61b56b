// What every layer uses: a byte of a slice, a count outside its range. The definitions and laws beside it are in specs/
// and proofs/.
#![tactic(auto)]

ghost use Rattle.std.specs.Prelude.{◌≡◌};
ghost use Rattle.lists.specs.Lists.{byte};
ghost use Rattle.lists.specs.Tables.{outside};

// The byte at `i`, 0 past the slice's end.
pub fn at(d: &[u8], i: usize) -> u8
    ensures { result ≡ byte d.now i }
{
    d.get(i).copied().unwrap_or(0)
}

// Whether a count lies outside 1 to `top`.
pub fn is_outside(n: u16, top: u16) -> bool
    ensures { result ≡ outside top n }
{
    !(1..=top).contains(&n)
}
