// The header alone: its 28 bytes checked and read.
ghost use Rattle.std.specs.Prelude.{◌≡◌, ◌*◌, ◌^◌, ◌≤◌, ◌<◌, length};
ghost use Rattle.lists.specs.Tables.{checked};
ghost use Rattle.formats.specs.Formats.{size_at};
ghost use Rattle.wire_rules.specs.Header.{header_size, header_of, data_size, foreign, name_field, mark_rows, bit_rows, field_rows, header_rows, header_alone};
ghost use Rattle.reader.specs.Unnamed.{unnamed};

use answers::Answer;
use formats::Format;
use wire_rules::{Header, HeaderRead};

// The four bytes as one number: one comparison.
pub(crate) fn is_foreign(d: &[u8]) -> bool
    ensures { result ≡ foreign d.now }
{
    words::at4(d, 0) != 0x4e414256
}

// The 16 bytes of the name.
pub fn name_field(d: &[u8]) -> &[u8; 16]
    requires { header_size ≤ length d.now }
    ensures { result.now ≡ name_field d.now }
{
    d[8..24].as_array().unwrap()
}

// Rows 3 and 4.
fn check_mark(d: &[u8]) -> Result<(), Answer>
    requires { header_size ≤ length d.now }
    ensures { result ≡ checked (mark_rows d.now) }
{
    if is_foreign(d) {
        return Err(Answer::Foreign);
    }
    if !wire::name::good(name_field(d)) {
        return Err(Answer::Name);
    }
    Ok(())
}

// Rows 6 to 10, by bytes 4 and 7.
fn check_bits(four: u8, seven: u8) -> Result<(), Answer>
    ensures { result ≡ checked (bit_rows four seven) }
{
    // Bytes that hold a rate and a type alone: no row refuses them.
    if four <= 20 && Format::may_read(seven) {
        return Ok(());
    }
    if wire::bits::sub_protocol(four) != 0 {
        return Err(Answer::SubProtocol);
    }
    if wire::bits::codec(seven) != 0 {
        return Err(Answer::Codec);
    }
    if wire::bits::reserved(seven) != 0 {
        return Err(Answer::Reserved);
    }
    if wire::bits::rate(four) > 20 {
        return Err(Answer::Rate);
    }
    if !Format::may_read(wire::bits::format(seven)) {
        return Err(Answer::DataType);
    }
    Ok(())
}

pub(crate) fn check_fields(d: &[u8]) -> Result<(), Answer>
    ensures { result ≡ checked (field_rows d.now) }
{
    check_bits(lists::at(d, 4), lists::at(d, 7))
}

fn check(d: &[u8]) -> Result<(), Answer>
    requires { header_size ≤ length d.now }
    ensures { result ≡ checked (header_rows d.now) }
{
    check_mark(d)?;
    check_fields(d)
}

// A header without its name, which following has looked at before.
pub fn numbers(d: &[u8]) -> Header
    ensures { result ≡ unnamed (header_of d.now) }
{
    Header {
        rate: wire::bits::rate(lists::at(d, 4)),
        frames: u16::from(lists::at(d, 5)) + 1,
        channels: u16::from(lists::at(d, 6)) + 1,
        format: wire::bits::format(lists::at(d, 7)),
        name: [0u8; 16],
        counter: words::at4(d, 24),
    }
}

pub(crate) fn fields(d: &[u8]) -> Header
    requires { header_size ≤ length d.now }
    ensures { result ≡ header_of d.now }
{
    let name = wire::name::kept(name_field(d));
    Header { name, ..numbers(d) }
}

// The header of a datagram, or of the 28 bytes alone: rows 3, 4 and 6 to 10.
pub fn alone(d: &[u8]) -> HeaderRead
    requires { header_size ≤ length d.now }
    ensures { result ≡ header_alone d.now }
{
    match check(d) {
        Ok(()) => HeaderRead {
            answer: Answer::Accepted,
            header: fields(d),
        },
        Err(answer) => HeaderRead {
            answer,
            header: Header::default(),
        },
    }
}

// The bytes of so many frames and channels of a type.
fn size_of(frames: u16, channels: u16, format: u8) -> usize
    ensures { (result ≡ frames * channels * size_at format) × (result < 2 ^ 40) }
{
    usize::from(frames) * usize::from(channels) * Format::size_at(format)
}

// The number of data bytes.
pub fn data_size(h: Header) -> usize
    ensures { result ≡ data_size h }
{
    size_of(h.frames, h.channels, h.format)
}

// The same of a datagram, without reading its name.
pub(crate) fn size_in(d: &[u8]) -> usize
    ensures { (result ≡ data_size (header_of d.now)) × (result < 2 ^ 40) }
{
    let frames = u16::from(lists::at(d, 5)) + 1;
    let channels = u16::from(lists::at(d, 6)) + 1;
    size_of(frames, channels, wire::bits::format(lists::at(d, 7)))
}
