// The rate of an index.
ghost use Rattle.std.specs.Prelude.{◌≡◌};
ghost use Rattle.wire_rules.specs.Rates.{rate_of};

use answers::Answer;
use wire_rules::Rated;

const RATES: [u32; 21] = [
    6000, 12000, 24000, 48000, 96000, 192000, 384000, 8000, 16000, 32000, 64000, 128000, 256000,
    512000, 11025, 22050, 44100, 88200, 176400, 352800, 705600,
];

pub fn rate(index: u8) -> Rated
    ensures { result ≡ rate_of index }
{
    match RATES.get(usize::from(index)) {
        Some(&hertz) => Rated {
            answer: Answer::Accepted,
            hertz,
        },
        None => Rated {
            answer: Answer::Rate,
            hertz: 0,
        },
    }
}
