// The house tally: cleared, and one count raised, by value and where it stands.
ghost use Rattle.std.specs.Prelude.{◌≡◌, ◌<◌};
ghost use Rattle.answers.specs.Numbers.{number_of, counts_kept, count_of};
ghost use Rattle.take_rules.specs.Tally.{cleared, tally_of, raised_of};

use answers::Answer;
use take_rules::Tally;

// Where an answer's count stands.
pub fn count(a: Answer) -> usize
    ensures { (result ≡ count_of (number_of a)) × (result < counts_kept) }
{
    answers::count(u8::from(a))
}

pub fn clear() -> Tally
    ensures { result ≡ cleared }
{
    Tally::default()
}

// One count raised where it stands, holding at the top.
pub fn raise_in(counts: &mut [u32; 17], a: Answer)
    ensures { counts.new ≡ (raised_of (tally_of counts.old) a).counts }
{
    let i = count(a);
    counts[i] = counts[i].saturating_add(1);
}

pub fn raise(tally: Tally, a: Answer) -> Tally
    ensures { result ≡ raised_of tally a }
{
    let mut counts = tally.counts;
    raise_in(&mut counts, a);
    Tally { counts }
}
