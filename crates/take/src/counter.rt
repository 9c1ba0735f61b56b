// Counters, which wrap.
ghost use Rattle.std.specs.Prelude.{◌≡◌};
ghost use Rattle.take_rules.specs.Counter.{away, newer};

// d: a counter less the newest, modulo 2^32.
pub fn distance(counter: u32, newest: u32) -> u32
    ensures { result ≡ away 32 counter newest }
{
    counter.wrapping_sub(newest)
}

pub fn is_newer(d: u32) -> bool
    ensures { result ≡ newer 32 d }
{
    (1..0x8000_0000).contains(&d)
}
