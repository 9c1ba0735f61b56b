// Capture records, read and written: 1,472 bytes of address, length, datagram and padding.
#![tactic(auto)]

ghost use Rattle.std.specs.Prelude.{◌≡◌, ◌≤◌, length as list_length, take, drop};
ghost use Rattle.take_rules.specs.Follow.{followed_of, followed_track};
ghost use Rattle.take_rules.specs.Tally.{tallied_of};
ghost use Rattle.cutter_rules.specs.Cut.{cut_of};
ghost use Rattle.wire_rules.specs.Header.{datagram_most};
ghost use Rattle.capture_rules.specs.Records.{record_size, address_of, length_of, datagram_of, capture_record, cut_record};

pub mod jobs;

use answers::Made;
use capture_rules::RECORD;
use cutter_rules::Cut;
use take_rules::{Followed, Take, Tally};
use wire_rules::{Header, LONGEST};

// What a program takes by one call of the system: a block of so many records.
pub const RECORDS: usize = 44;

pub const BLOCK: usize = RECORDS * RECORD;

// The programs' tracks: 2,048 frames.
pub const TRACK: usize = 2048 * track_rules::RECORD;

// The sender's address, of a record or of a job file.
pub fn address(heard: &[u8]) -> u32
    ensures { result ≡ address_of heard.now }
{
    words::at4(heard, 0)
}

// The length that the record states.
fn stated(heard: &[u8]) -> u32
    ensures { result ≡ length_of heard.now }
{
    words::at4(heard, 4)
}

// One record into the take, as following a datagram of the length that the record states; one count of the lent tally is raised.
pub fn follow(take: Take, tally: &mut Tally, heard: &[u8; RECORD], track: &mut [u8]) -> Followed
    ensures answer { result ≡ followed_of take (address_of heard.now) (datagram_of heard.now) track.old }
    ensures tally { tally.new ≡ (tallied_of take tally.old (address_of heard.now) (datagram_of heard.now) track.old).tally }
    ensures track { track.new ≡ followed_track take (address_of heard.now) (datagram_of heard.now) track.old }
{
    let sender = address(heard);
    let length = stated(heard) as usize;
    // All datagrams over 1,464 bytes are answered alike, so the record itself, which is longer, stands for one.
    if length > LONGEST {
        return lent::follow(take, tally, sender, heard, track);
    }
    let end = 8 + length;
    lent::follow(take, tally, sender, &heard[8..end], track)
}

// The address, the length and the padding around a datagram that stands at byte 8.
fn surround(address: u32, length: usize, out: &mut [u8])
    requires { (length ≤ datagram_most) × (list_length out.old ≡ record_size) }
    ensures { out.new ≡ capture_record address (take length (drop 8 out.old)) }
{
    let zeros = [0u8; LONGEST];
    let padding = LONGEST - length;
    words::put::<4>(&mut out[0..4], address);
    words::put::<4>(&mut out[4..8], length as u32);
    words::place(&zeros[0..padding], out, 8 + length);
}

// Packet `k` of a track as a record, or nothing where a check refuses.
pub fn cut(header: Header, track: &[u8], k: u32, address: u32, out: &mut [u8]) -> Cut
    requires { list_length out.old ≡ record_size }
    ensures answer { result ≡ cut_of header track.now k (drop 8 out.old) }
    ensures output { out.new ≡ cut_record header track.now k address out.old }
{
    let made = recorder::cut(header, track, k, &mut out[8..RECORD]);
    if made.answer == Made::Done {
        surround(address, made.length, out);
    }
    made
}
