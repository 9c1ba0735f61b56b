// Widening and narrowing signed numbers, and numbers as their bits.
ghost use Rattle.std.specs.Prelude.{◌≡◌, ◌+◌, ◌-◌, ◌%◌, ◌^◌, ◌≤◌, ◌<◌, pos, negsuc, nat_abs, ◌*ℤ◌};
ghost use Rattle.std.proofs.Math.IntN.{sub_ℕ};
ghost use Rattle.std.specs.Int.Signed.{mag, lt_z};
ghost use Rattle.lists.specs.Tables.{choose};
ghost use Rattle.sample_rules.specs.Convert.{rank, narrowed, rescaled};
ghost use Rattle.sample_rules.specs.Bits.{signed_of, bits_of};

// 2 to the k.
fn power(k: u32) -> i64
    requires { k ≤ 32 }
    ensures { result ≡ pos (2 ^ k) }
{
    1 << k
}

// 1 for an odd number.
fn odd(q: i32) -> i32
    ensures { result ≡ pos (nat_abs q % 2) }
{
    if q % 2 == 0 { 0 } else { 1 }
}

// A number of so many bits as one of `k` bits more: its value stays.
pub fn widen(n: i32, k: u32) -> i32
    requires { (k ≤ 32) × (mag (n *ℤ pos (2 ^ k)) < 2 ^ 31) }
    ensures { result ≡ n *ℤ pos (2 ^ k) }
{
    (i64::from(n) * power(k)) as i32
}

// The last number of `w` bits that is not rounded past the highest of `w - k` bits: it lies less than half a step above.
fn last(w: u32, k: u32) -> i32
    requires { (1 ≤ k) × (k < w) × (w ≤ 32) }
    ensures { result ≡ pos (2 ^ (w - 1) - 2 ^ (k - 1) - 1) }
{
    (power(w - 1) - power(k - 1) - 1) as i32
}

// What is added before the low bits go: half a step less one. Past `last` it is -1: there the whole part is the highest number,
// which is odd, so that -1 and the 1 for odd leave the number as it is, and no sum leaves 32 bits.
fn half_step(n: i32, last: i32, half: i32) -> i32
    ensures { result ≡ choose (lt_z last n) (negsuc 0) half }
{
    if last < n { -1 } else { half }
}

// A number of `v + k` bits as one of `v` bits: half a step less one, and one more where the whole part is odd,
// takes what is past half up and a tie to the even one.
pub fn narrow(n: i32, k: u32, v: u32) -> i32
    requires { (1 ≤ k) × (2 ≤ v) × (v + k ≤ 32) × (mag n < 2 ^ (v + k - 1)) }
    ensures { result ≡ sub_ℕ (narrowed k v (rank (2 ^ (v + k - 1)) n)) (2 ^ (v - 1)) }
{
    let half = half_step(n, last(v + k, k), (power(k - 1) - 1) as i32);
    let whole = n >> k;
    let risen = n + half + odd(whole);
    risen >> k
}

// A number of `w` bits as one of `v` bits.
pub fn rescale(n: i32, w: u32, v: u32) -> i32
    requires { (2 ≤ w) × (w ≤ 32) × (2 ≤ v) × (v ≤ 32) × (mag n < 2 ^ (w - 1)) }
    ensures { result ≡ sub_ℕ (rescaled w v (rank (2 ^ (w - 1)) n)) (2 ^ (v - 1)) }
{
    if w <= v {
        return widen(n, v - w);
    }
    narrow(n, w - v, v)
}

// `w` bits as a signed number: negative where the top bit is set. Half the numbers added, the rest by all of them, and half
// taken away again is what the compiler knows as one extension of the sign.
pub fn signed(u: u32, w: u32) -> i32
    requires { (1 ≤ w) × (w ≤ 32) × (u < 2 ^ w) }
    ensures { result ≡ signed_of w u }
{
    let half = power(w - 1);
    let step = half as u64;
    let x = (u64::from(u) + step) % (step * 2);
    (x as i64 - half) as i32
}

// The `w` bits of a signed number.
pub fn bits(n: i32, w: u32) -> u32
    requires { (1 ≤ w) × (w ≤ 32) × (mag n < 2 ^ (w - 1)) }
    ensures { result ≡ bits_of w n }
{
    let all = power(w);
    let m = i64::from(n) + all;
    (m as u64 % all as u64) as u32
}
