// The name rule.
ghost use Rattle.std.specs.Prelude.{◌≡◌, ◌%◌, ◌^◌, ◌≤◌, length};
ghost use Rattle.wire_rules.specs.Names.{name_of, good_name, kept_name, same_bytes, same_name};
ghost use Rattle.wire.specs.Measured.{before_zero, characters_of, measured};

// How many characters the name has: the bytes before the first zero, or all.
fn count(n: &[u8]) -> usize
    ensures { result ≡ before_zero n.now }
{
    n.iter().take_while(|&&b| b != 0).count()
}

// How many characters stand at the front: the bytes before the first that no name has, or all.
fn characters(n: &[u8]) -> usize
    ensures { result ≡ characters_of n.now }
{
    n.iter().take_while(|&&b| b >= 0x20 && b <= 0x7e).count()
}

// How many characters a good name has: a name is good if it has one, and a zero or the end comes after them.
#[tactic(auto, using(crate::proofs::Measuring::ended, crate::proofs::Measuring::none_at_front, crate::proofs::Measuring::broken))]
pub fn measure(n: &[u8]) -> Option<usize>
    ensures { result ≡ measured n.now }
{
    let k = characters(n);
    if k > 0 && lists::at(n, k) == 0 {
        Some(k)
    } else {
        None
    }
}

pub fn good(n: &[u8]) -> bool
    ensures { result ≡ good_name n.now }
{
    measure(n).is_some()
}

// The lowest `k` bytes of eight.
fn lowest(w: u64, k: usize) -> u64
    ensures { result ≡ w % 256 ^ k }
{
    if k < 8 {
        let shift = (8 * k) as u32;
        return w % (1u64 << shift);
    }
    w
}

// The name of `k` characters with zeros after it, into the bytes that are lent, as two words: a copy of so many bytes would cost a
// loop. The second word of a short name is zero. Both are read before one is stored, since nothing tells the compiler that the slices
// are apart.
pub fn keep(n: &[u8; 16], k: usize, out: &mut [u8])
    requires out_len { length out.old ≡ 16 }
    requires k_value { k ≡ length (name_of n.now) }
    ensures { out.new ≡ kept_name n.now }
{
    let first = lowest(words::get8(n, 0), k);
    if k < 8 {
        words::put8(&mut out[0..8], first);
        words::put8(&mut out[8..16], 0);
        return;
    }
    let second = lowest(words::get8(n, 8), k - 8);
    words::put8(&mut out[0..8], first);
    words::put8(&mut out[8..16], second);
}

pub fn kept(n: &[u8; 16]) -> [u8; 16]
    ensures { result ≡ kept_name n.now }
{
    let mut name = [0u8; 16];
    keep(n, count(n), &mut name);
    name
}

// Whether two fields hold the same name, whatever follows it.
pub fn same(m: &[u8], n: &[u8]) -> bool
    ensures { result ≡ same_name m.now n.now }
{
    for (i, &b) in m.iter().enumerate() {
        if b == 0 {
            return lists::at(n, i) == 0;
        }
        if lists::at(n, i) != b {
            return false;
        }
    }
    lists::at(n, m.len()) == 0
}

// Whether two fields hold the same bytes.
pub fn equal(m: &[u8; 16], n: &[u8; 16]) -> bool
    ensures { result ≡ same_bytes m.now n.now }
{
    m == n
}
