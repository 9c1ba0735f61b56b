// Writing one packet.
ghost use Rattle.std.specs.Prelude.{◌≡◌, ◌+◌, ◌≤◌, length};
ghost use Rattle.lists.specs.Lists.{put};
ghost use Rattle.wire_rules.specs.Header.{header_size};
ghost use Rattle.wire_rules.specs.Names.{name_of};
ghost use Rattle.wire_rules.specs.Write.{lead_of, header_bytes, packet_of, GoodForm, write_rows, write_of, output_of};
ghost use Rattle.writer.specs.Checks.{passing, bad_numbers, form_rows};

use answers::Made;
use formats::Format;
use wire_rules::{DATA_MOST, HEADER, Header, Written};

// A name's 16 bytes, and how many characters it has.
#[derive(Clone, Copy)]
pub struct Measured<'a> {
    pub field: &'a [u8; 16],
    pub characters: usize,
    ghost counted: { characters ≡ length (name_of field.now) },
}

// Whether a packet can't have the numbers of a header, whatever its name.
fn has_bad_numbers(h: Header) -> bool
    ensures { result ≡ bad_numbers h }
{
    h.rate > 20
        || !Format::may_send(h.format)
        || lists::is_outside(h.frames, 256)
        || lists::is_outside(h.channels, 256)
}

// Row 20. A good form has a good name, which is measured once for the checks and the writing: this gives how many characters it has.
pub fn check_form(name: &[u8; 16], h: Header) -> Result<usize, Made>
    requires { name.now ≡ h.name }
    ensures { result ≡ passing (length (name_of h.name)) (form_rows h) }
{
    if has_bad_numbers(h) {
        return Err(Made::Form);
    }
    wire::name::measure(name).ok_or(Made::Form)
}

// Rows 20 to 23, by the bytes of data given and the room for the packet. After row 22 what is given is small, so the sum fits.
fn check(name: &[u8; 16], h: Header, given: usize, room: usize) -> Result<usize, Made>
    requires { name.now ≡ h.name }
    ensures { result ≡ passing (length (name_of h.name)) (write_rows h given room) }
{
    let named = check_form(name, h)?;
    let size = reader::header::data_size(h);
    if size > DATA_MOST {
        return Err(Made::Big);
    }
    if given != size {
        return Err(Made::Data);
    }
    if room < HEADER + given {
        return Err(Made::Room);
    }
    Ok(named)
}

// The 28 bytes, of the raw bytes 4 to 7, a name and a counter.
pub fn lead(b4: u8, b5: u8, b6: u8, b7: u8, name: Measured, counter: u32, out: &mut [u8])
    requires out_len { length out.old ≡ header_size }
    ensures { out.new ≡ lead_of b4 b5 b6 b7 name.entry.field.now counter }
{
    let mark = [0x56u8, 0x42, 0x41, 0x4e, b4, b5, b6, b7];
    words::place(&mark, out, 0);
    wire::name::keep(name.field, name.characters, &mut out[8..24]);
    words::put::<4>(&mut out[24..28], counter);
}

// The 28 bytes of a header: audio, PCM, the reserved bit zero. Its name comes beside it, lent: one copied out of a struct costs much.
pub fn header(name: Measured, h: Header, out: &mut [u8])
    requires name_value { name.field.now ≡ h.name }
    requires good_form { GoodForm h }
    requires out_len { length out.old ≡ header_size }
    ensures { out.new ≡ header_bytes h }
{
    let b4 = wire::bits::join_four(h.rate, 0);
    let b5 = (h.frames - 1) as u8;
    let b6 = (h.channels - 1) as u8;
    let b7 = wire::bits::join_seven(h.format, 0, 0);
    lead(b4, b5, b6, b7, name, h.counter, out);
}

// A packet of good form, where there is room.
fn emit(name: Measured, h: Header, samples: &[u8], out: &mut [u8])
    requires name_value { name.field.now ≡ h.name }
    requires good_form { GoodForm h }
    requires samples_in_bounds { header_size + length samples.now ≤ length out.old }
    ensures { out.new ≡ put out.old 0 (packet_of h samples.now) }
{
    header(name, h, &mut out[0..HEADER]);
    words::place(samples, out, HEADER);
}

// Writes a packet, or nothing where a check refuses.
pub fn write(h: Header, samples: &[u8], out: &mut [u8]) -> Written
    ensures answer { result ≡ write_of h samples.now out.old }
    ensures output { out.new ≡ output_of h samples.now out.old }
{
    let name = h.name;
    match check(&name, h, samples.len(), out.len()) {
        Ok(characters) => {
            let named = Measured {
                field: &name,
                characters,
            };
            emit(named, h, samples, out);
            Written {
                answer: Made::Done,
                length: HEADER + samples.len(),
            }
        }
        Err(answer) => Written { answer, length: 0 },
    }
}
