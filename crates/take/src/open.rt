// Opening a take.
ghost use Rattle.std.specs.Prelude.{◌≡◌};
ghost use Rattle.take_rules.specs.Take.{unbegun_for, no_take, open_of, opened_track};

use answers::Answer;
use take_rules::{Opened, Take, Who};

// A take that has accepted nothing yet.
fn unbegun(who: Who) -> Take
    ensures { result ≡ unbegun_for who }
{
    Take {
        who,
        ..Take::default()
    }
}

// The all-zero take.
fn none() -> Take
    ensures { result ≡ no_take }
{
    Take::default()
}

// Fixes the name and the sender's address, and clears all whole records.
pub fn open(name: [u8; 16], address: u32, track: &mut [u8]) -> Opened
    ensures answer { result ≡ open_of name address }
    ensures track { track.new ≡ opened_track name track.old }
{
    if !wire::name::good(&name) {
        return Opened {
            answer: Answer::Name,
            take: none(),
        };
    }
    track::clear(track);
    let who = Who {
        name: wire::name::kept(&name),
        address,
    };
    Opened {
        answer: Answer::Accepted,
        take: unbegun(who),
    }
}
