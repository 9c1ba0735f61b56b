// The box's face: what a caller uses, in one place. No function here asks anything of its caller.
#![tactic(auto)]

ghost use Rattle.std.specs.Prelude.{◌≡◌};
ghost use Rattle.sample_rules.specs.Convert.{convert_of};
ghost use Rattle.wire_rules.specs.Rates.{rate_of};
ghost use Rattle.wire_rules.specs.Read.{read_of};
ghost use Rattle.wire_rules.specs.Write.{write_of, output_of};
ghost use Rattle.take_rules.specs.Take.{open_of, opened_track};
ghost use Rattle.take_rules.specs.Follow.{followed_track};
ghost use Rattle.take_rules.specs.Tally.{cleared, tallied_of};
ghost use Rattle.cutter_rules.specs.Largest.{largest_of};
ghost use Rattle.cutter_rules.specs.Cut.{cut_of, cut_output};

use cutter_rules::{Cut, Largest};
use sample_rules::Converted;
use take_rules::{Opened, Take, Tallied, Tally};
use wire_rules::{Header, Rated, Read, Written};

// The rate of an index, in Hz.
pub fn rate(index: u8) -> Rated
    ensures { result ≡ rate_of index }
{
    wire::rate::rate(index)
}

// One number of a type as a number of another.
pub fn convert(from: u8, to: u8, n: i64) -> Converted
    ensures { result ≡ convert_of from to n }
{
    samples::convert(from, to, n)
}

// One datagram.
pub fn read(datagram: &[u8]) -> Read
    ensures { result ≡ read_of datagram.now }
{
    reader::read::read(datagram)
}

// One packet into the lent output.
pub fn write(header: Header, samples: &[u8], out: &mut [u8]) -> Written
    ensures answer { result ≡ write_of header samples.now out.old }
    ensures output { out.new ≡ output_of header samples.now out.old }
{
    writer::write::write(header, samples, out)
}

// A take for a name and a sender's address, on a lent track.
pub fn open(name: [u8; 16], address: u32, track: &mut [u8]) -> Opened
    ensures answer { result ≡ open_of name address }
    ensures track { track.new ≡ opened_track name track.old }
{
    take::open::open(name, address, track)
}

// A cleared tally.
pub fn tally() -> Tally
    ensures { result ≡ cleared }
{
    take::counts::clear()
}

// One datagram into the take; one count of the tally is raised.
pub fn follow(take: Take, tally: Tally, address: u32, datagram: &[u8], track: &mut [u8]) -> Tallied
    ensures answer { result ≡ tallied_of take tally address datagram.now track.old }
    ensures track { track.new ≡ followed_track take address datagram.now track.old }
{
    take::follow::follow(take, tally, address, datagram, track)
}

// The most frames that a packet of a type and channels can have.
pub fn largest(format: u8, channels: u16) -> Largest
    ensures { result ≡ largest_of format channels }
{
    cutter::largest::largest(format, channels)
}

// Packet `k` of a track, into the lent output.
pub fn cut(header: Header, track: &[u8], k: u32, out: &mut [u8]) -> Cut
    ensures answer { result ≡ cut_of header track.now k out.old }
    ensures output { out.new ≡ cut_output header track.now k out.old }
{
    cutter::cut::cut(header, track, k, out)
}
