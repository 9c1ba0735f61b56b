// Cutting packet k of a track.
ghost use Rattle.std.specs.Prelude.{◌≡◌, ◌+◌, ◌≤◌, length};
ghost use Rattle.lists.specs.Lists.{put};
ghost use Rattle.formats.specs.Formats.{MaySend};
ghost use Rattle.wire_rules.specs.Names.{name_of};
ghost use Rattle.wire_rules.specs.Header.{data_size, header_size};
ghost use Rattle.wire_rules.specs.Write.{GoodForm, packet_of};
ghost use Rattle.track_rules.specs.Records.{records_held};
ghost use Rattle.cutter_rules.specs.Schedule.{schedule_of};
ghost use Rattle.cutter_rules.specs.Cut.{packet_header, taken_by, cut_rows, cut_of, cut_output};
ghost use Rattle.writer.specs.Checks.{passing};
ghost use Rattle.cutter.specs.Checks.{form_rows};

use answers::Made;
use cutter_rules::Cut;
use formats::Format;
use wire_rules::Header;
use writer::write::Measured;

// Row 20; as in the packet writer, it gives how many characters the name has.
fn check_form(name: &[u8; 16], h: Header) -> Result<usize, Made>
    requires { name.now ≡ h.name }
    ensures { result ≡ passing (length (name_of h.name)) (form_rows h) }
{
    let named = writer::write::check_form(name, h)?;
    if h.channels > 8 || crate::largest::is_over(h.frames, h.format, h.channels) {
        return Err(Made::Form);
    }
    Ok(named)
}

// Packet `k`'s header, for a track of `frames` frames.
fn packet_header(h: Header, frames: usize, k: u32) -> Header
    ensures { result ≡ packet_header h (schedule_of frames h.frames) k }
{
    Header {
        frames: crate::schedule::count(frames, h.frames, k),
        counter: h.counter.wrapping_add(k),
        ..h
    }
}

// All rows in order. Of the packet writer's only the room can still refuse: N and the track bound the packet.
fn check(name: &[u8; 16], h: Header, track: &[u8], k: u32, room: usize) -> Result<usize, Made>
    requires { name.now ≡ h.name }
    ensures { result ≡ passing (length (name_of h.name)) (cut_rows h track.now k room) }
{
    let named = check_form(name, h)?;
    if track.len() % track_rules::RECORD != 0 {
        return Err(Made::Data);
    }
    let frames = track::held(track);
    if crate::schedule::bad_number(frames, h.frames, k) {
        return Err(Made::Number);
    }
    let hk = packet_header(h, frames, k);
    if room < wire_rules::HEADER + reader::header::data_size(hk) {
        return Err(Made::Room);
    }
    Ok(named)
}

// The frames of a packet from record `from` on, after its header.
fn take_samples(h: Header, track: &[u8], from: usize, out: &mut [u8])
    requires may_send { MaySend h.format }
    requires channels_bound { (h.channels ≤ 8) × (from + h.frames ≤ records_held track.now) × (header_size + data_size h ≤ length out.old) }
    ensures { out.new ≡ put out.old header_size (taken_by h track.now from) }
{
    let Format::Whole(f) = Format::from(h.format) else {
        unreachable!()
    };
    track_out::take_out(
        f,
        track,
        from,
        usize::from(h.frames),
        usize::from(h.channels),
        out,
        wire_rules::HEADER,
    );
}

// Straight into the output, in one pass.
fn emit(name: Measured, h: Header, track: &[u8], from: usize, out: &mut [u8])
    requires name_value { name.field.now ≡ h.name }
    requires good_form { GoodForm h }
    requires channels_bound { (h.channels ≤ 8) × (from + h.frames ≤ records_held track.now) × (header_size + data_size h ≤ length out.old) }
    ensures { out.new ≡ put out.old 0 (packet_of h (taken_by h track.now from)) }
{
    writer::write::header(name, h, &mut out[0..wire_rules::HEADER]);
    take_samples(h, track, from, out);
}

// Packet `k` of the track, or nothing where a check refuses. The header's frames are N and its counter is the start.
pub fn cut_named(name: &[u8; 16], h: Header, track: &[u8], k: u32, out: &mut [u8]) -> Cut
    requires { name.now ≡ h.name }
    ensures answer { result ≡ cut_of h track.now k out.old }
    ensures output { out.new ≡ cut_output h track.now k out.old }
{
    match check(name, h, track, k, out.len()) {
        Ok(characters) => {
            let named = Measured {
                field: name,
                characters,
            };
            let hk = packet_header(h, track::held(track), k);
            let from = crate::schedule::from(h.frames, k);
            emit(named, hk, track, from, out);
            Cut {
                answer: Made::Done,
                length: wire_rules::HEADER + reader::header::data_size(hk),
            }
        }
        Err(answer) => Cut { answer, length: 0 },
    }
}

// The same, of a header alone.
pub fn cut(h: Header, track: &[u8], k: u32, out: &mut [u8]) -> Cut
    ensures answer { result ≡ cut_of h track.now k out.old }
    ensures output { out.new ≡ cut_output h track.now k out.old }
{
    let name = h.name;
    cut_named(&name, h, track, k, out)
}
