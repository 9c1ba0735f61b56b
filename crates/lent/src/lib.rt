// Following with the tally lent.
#![tactic(auto)]

ghost use Rattle.std.specs.Prelude.{◌≡◌};
ghost use Rattle.take_rules.specs.Follow.{followed_of, followed_track};
ghost use Rattle.take_rules.specs.Tally.{tallied_of};

use take_rules::{Followed, Take, Tally};

// One datagram into the take; one count of the lent tally is raised.
pub fn follow(
    take: Take,
    tally: &mut Tally,
    address: u32,
    datagram: &[u8],
    track: &mut [u8],
) -> Followed
    ensures answer { result ≡ followed_of take address datagram.now track.old }
    ensures tally { tally.new ≡ (tallied_of take tally.old address datagram.now track.old).tally }
    ensures track { track.new ≡ followed_track take address datagram.now track.old }
{
    let r = take::follow::follow(take, *tally, address, datagram, track);
    *tally = r.tally;
    r.followed
}
