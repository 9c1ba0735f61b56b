// The checks of following, in two halves: the take's state and the stream, then the packet.
ghost use Rattle.std.specs.Prelude.{◌≡◌, true, false};
ghost use Rattle.lists.specs.Tables.{checked};
ghost use Rattle.wire_rules.specs.Names.{good_name};
ghost use Rattle.take_rules.specs.Take.{bad_shape, bad_line, bad_state};
ghost use Rattle.take_rules.specs.Follow.{shape_of, changed_shape, take_rows, stream_rows, packet_rows, follow_rows};
ghost use Rattle.take.specs.Judging.{named_rows, judged_by};

use answers::Answer;
use formats::Format;
use take_rules::{Line, Shape, Take};
use wire_rules::Header;

// ---- 16 and the stream

fn bad_shape(s: Shape) -> bool
    ensures { result ≡ bad_shape s }
{
    lists::is_outside(s.channels, 8) || s.rate > 20 || !Format::may_read(s.format)
}

fn bad_line(l: Line) -> bool
    ensures { result ≡ bad_line l }
{
    lists::is_outside(l.n, 256)
}

// The take's name comes beside the take, so that it need not be copied out of it.
pub fn bad_state(name: &[u8; 16], t: Take) -> bool
    requires { name.now ≡ t.who.name }
    ensures { result ≡ bad_state t }
{
    !wire::name::good(name) || t.begun && (bad_shape(t.shape) || bad_line(t.line))
}

// Row 4 and the name's part of row 5. What has the very bytes of a good name is good, and the same.
fn check_name(name: &[u8; 16], field: &[u8; 16]) -> Result<(), Answer>
    requires { good_name name.now ≡ true }
    ensures { result ≡ checked (named_rows name.now field.now) }
{
    if wire::name::equal(name, field) {
        return Ok(());
    }
    if !wire::name::good(field) {
        return Err(Answer::Name);
    }
    if !wire::name::same(name, field) {
        return Err(Answer::OtherStream);
    }
    Ok(())
}

// Rows 16 and 1 to 5.
fn check_stream(name: &[u8; 16], t: Take, address: u32, d: &[u8]) -> Result<(), Answer>
    requires { name.now ≡ t.who.name }
    ensures { result ≡ checked (stream_rows t address d.now) }
{
    if bad_state(name, t) {
        return Err(Answer::State);
    }
    reader::read::check_lead(d)?;
    check_name(name, reader::header::name_field(d))?;
    if address != t.who.address {
        return Err(Answer::OtherStream);
    }
    Ok(())
}

// ---- the packet

// What a packet has of a take's shape.
pub(crate) fn shape_of(h: Header) -> Shape
    ensures { result ≡ shape_of h }
{
    Shape {
        rate: h.rate,
        channels: h.channels,
        format: h.format,
    }
}

fn is_changed(t: Take, h: Header) -> bool
    ensures { result ≡ changed_shape t h }
{
    t.begun && (shape_of(h) != t.shape || t.line.n < h.frames)
}

// Rows 12 to 15.
fn check_place(t: Take, h: Header, held: usize) -> Result<(), Answer>
    ensures { result ≡ checked (take_rows t h held) }
{
    if h.channels > 8 {
        return Err(Answer::Channels);
    }
    if is_changed(t, h) {
        return Err(Answer::Shape);
    }
    if crate::line::is_late(t, h) {
        return Err(Answer::Late);
    }
    if crate::line::is_beyond(t, h, held) {
        return Err(Answer::Beyond);
    }
    Ok(())
}

// Rows 6 to 15: the packet's header, where they pass.
pub fn judge_packet(t: Take, d: &[u8], held: usize) -> Result<Header, Answer>
    ensures { result ≡ judged_by (packet_rows t d.now held) d.now }
{
    reader::read::check_audio(d)?;
    let header = reader::header::numbers(d);
    check_place(t, header, held)?;
    Ok(header)
}

// All rows in order.
pub fn judge(
    name: &[u8; 16],
    t: Take,
    address: u32,
    d: &[u8],
    held: usize,
) -> Result<Header, Answer>
    requires { name.now ≡ t.who.name }
    ensures { result ≡ judged_by (follow_rows t address d.now held) d.now }
{
    check_stream(name, t, address, d)?;
    judge_packet(t, d, held)
}
