// Bytes as numbers and numbers as bytes, the lowest first. Reads and stores of a few bytes are functions of their own, so that
// each becomes one load or one store.
#![tactic(auto)]

ghost use Rattle.std.specs.Prelude.{◌≡◌, ◌+◌, ◌^◌, ◌<◌, ◌≤◌, length, take, drop};
ghost use Rattle.lists.specs.Lists.{put};
ghost use Rattle.lists.specs.Little.{little, bytes_of};

// The number of the `N` bytes from `a` on.
pub fn get<const N: usize>(d: &[u8], a: usize) -> u32
    requires { (N ≤ 4) × (a + N ≤ length d.now) }
    ensures { (result ≡ little N d.now a) × (result < 256 ^ N) }
{
    let end = a + N;
    let mut bytes = [0u8; 4];
    bytes[..N].copy_from_slice(&d[a..end]);
    u32::from_le_bytes(bytes)
}

// The number of four bytes, 0 past the slice's end.
pub fn at4(d: &[u8], a: usize) -> u32
    requires { a < 2 ^ 16 }
    ensures { result ≡ little 4 d.now a }
{
    u32::from_le_bytes([
        lists::at(d, a),
        lists::at(d, a + 1),
        lists::at(d, a + 2),
        lists::at(d, a + 3),
    ])
}

pub fn get8(d: &[u8], a: usize) -> u64
    requires { a + 8 ≤ length d.now }
    ensures { result ≡ little 8 d.now a }
{
    let end = a + 8;
    let mut bytes = [0u8; 8];
    bytes.copy_from_slice(&d[a..end]);
    u64::from_le_bytes(bytes)
}

// Stores the `N` bytes of `v` over the whole of `out`.
pub fn put<const N: usize>(out: &mut [u8], v: u32)
    requires { (N ≤ 4) × (length out.old ≡ N) × (v < 256 ^ N) }
    ensures { out.new ≡ bytes_of N v }
{
    out.copy_from_slice(&v.to_le_bytes()[..N]);
}

pub fn put8(out: &mut [u8], w: u64)
    requires { length out.old ≡ 8 }
    ensures { out.new ≡ bytes_of 8 w }
{
    out.copy_from_slice(&w.to_le_bytes());
}

// By way of a block of our own: the compiler then sees that nothing overlaps, drops the block, and moves memory at once.
fn copy_block(src: &[u8], out: &mut [u8])
    requires { (length src.now ≤ 1464) × (length out.old ≡ length src.now) }
    ensures { out.new ≡ src.now }
{
    let mut block = [0u8; 1464];
    let n = src.len();
    block[..n].copy_from_slice(src);
    out.copy_from_slice(&block[..n]);
}

// `n` bytes of `d` from `from` on, written over `out` from `at` on.
pub fn copy(d: &[u8], from: usize, n: usize, out: &mut [u8], at: usize)
    requires { (from + n ≤ length d.now) × (at + n ≤ length out.old) }
    ensures { out.new ≡ put out.old at (take n (drop from d.now)) }
{
    let past = from + n;
    let end = at + n;
    if n <= 1464 {
        copy_block(&d[from..past], &mut out[at..end]);
        return;
    }
    out[at..end].copy_from_slice(&d[from..past]);
}

// Writes `src` over `out` from `at` on.
pub fn place(src: &[u8], out: &mut [u8], at: usize)
    requires { at + length src.now ≤ length out.old }
    ensures { out.new ≡ put out.old at src.now }
{
    let e = at + src.len();
    out[at..e].copy_from_slice(src);
}
