// Following a take, by value.
ghost use Rattle.std.specs.Prelude.{◌≡◌, ◌+◌, ◌*◌, ◌≤◌, false, length};
ghost use Rattle.formats.specs.Formats.{format_of, MayRead, size_at};
ghost use Rattle.wire_rules.specs.Header.{header_size};
ghost use Rattle.track_rules.specs.Records.{records_held, laid_of, packet_slot};
ghost use Rattle.take_rules.specs.Follow.{place_of, changed_shape, followed_by, laid_by, followed_of, followed_track};
ghost use Rattle.take_rules.specs.Tally.{tallied_of};
ghost use Rattle.take.specs.Judging.{accepted_by, Asked};

use answers::Answer;
use formats::Format;
use take_rules::{Followed, Take, Tallied, Tally, Told};
use wire_rules::{HEADER, Header};

// The take after a packet at `place`. What the first packet fixed is the same in each that is accepted.
pub fn followed_by(t: Take, h: Header, place: usize) -> Take
    requires { (place ≡ place_of t h) × (changed_shape t h ≡ false) }
    ensures { result ≡ followed_by t h }
{
    Take {
        who: t.who,
        begun: true,
        shape: crate::judge::shape_of(h),
        line: crate::line::next(t, h, place),
    }
}

// A packet's records, brought to slots by its type. The header's numbers come one by one: a struct would go by way of memory.
pub fn lay(format: u8, frames: u16, channels: u16, d: &[u8], place: usize, track: &mut [u8])
    requires may_read { MayRead format }
    requires channels_bound { (channels ≤ 8) × (length d.now ≡ header_size + frames * channels * size_at format) × (place + frames ≤ records_held track.old) }
    ensures { track.new ≡ laid_of track.old place frames (packet_slot (format_of format) d.now header_size channels) }
{
    let Format::Whole(f) = Format::from(format) else {
        unreachable!()
    };
    track::lay(
        f,
        d,
        HEADER,
        usize::from(frames),
        usize::from(channels),
        track,
        place,
    );
}

// A packet that is accepted.
fn accept(t: Take, h: Header, d: &[u8], track: &mut [u8]) -> Followed
    requires { Asked t h d.now track.old }
    ensures value { result ≡ accepted_by t h }
    ensures track_after { track.new ≡ laid_by h d.now (place_of t h) track.old }
{
    let place = crate::line::place_of(t, h);
    lay(h.format, h.frames, h.channels, d, place, track);
    let told = Told {
        answer: Answer::Accepted,
        place,
        frames: h.frames,
        skipped: crate::line::skipped(t, h),
    };
    Followed {
        told,
        take: followed_by(t, h, place),
    }
}

// Judges a datagram and, where it is accepted, lays its records down. A refusal tells zeros and leaves the take.
fn followed(
    name: &[u8; 16],
    take: Take,
    address: u32,
    datagram: &[u8],
    track: &mut [u8],
) -> Followed
    requires { name.now ≡ take.who.name }
    ensures value { result ≡ followed_of take address datagram.now track.old }
    ensures track_after { track.new ≡ followed_track take address datagram.now track.old }
{
    match crate::judge::judge(name, take, address, datagram, track::held(track)) {
        Ok(header) => accept(take, header, datagram, track),
        Err(answer) => Followed {
            told: Told {
                answer,
                place: 0,
                frames: 0,
                skipped: 0,
            },
            take,
        },
    }
}

// The same, and the answer's count raised.
pub fn follow(take: Take, tally: Tally, address: u32, datagram: &[u8], track: &mut [u8]) -> Tallied
    ensures answer { result ≡ tallied_of take tally address datagram.now track.old }
    ensures track { track.new ≡ followed_track take address datagram.now track.old }
{
    let followed = followed(&take.who.name, take, address, datagram, track);
    Tallied {
        followed,
        tally: crate::counts::raise(tally, followed.told.answer),
    }
}
