// The box's face for C: every function answers document 01's number, and zeros in what it writes beside a refusal.
#![tactic(auto)]

ghost use Rattle.std.specs.Prelude.{◌≡◌};
ghost use Rattle.answers.specs.Numbers.{number_of, number_made};
ghost use Rattle.sample_rules.specs.Convert.{convert_of};
ghost use Rattle.wire_rules.specs.Rates.{rate_of};
ghost use Rattle.wire_rules.specs.Read.{read_of};
ghost use Rattle.wire_rules.specs.Write.{write_of, output_of};
ghost use Rattle.take_rules.specs.Take.{open_of, opened_track};
ghost use Rattle.take_rules.specs.Follow.{followed_track};
ghost use Rattle.take_rules.specs.Tally.{cleared};
ghost use Rattle.cutter_rules.specs.Largest.{largest_of};
ghost use Rattle.cutter_rules.specs.Cut.{cut_of, cut_output};
ghost use Rattle.kept.specs.Kept.{take_bytes, take_of};
ghost use Rattle.firmware.specs.Face.{fields_of, header_from, followed_for, laid_for, kept_after, count_for, state_for, shape_for};

use answers::Answer;
use wire_rules::Header;

// The rate of an index, in Hz.
pub fn tashmirok_rate(index: u8, hertz: &mut u32) -> u8
    ensures answer { result ≡ number_of (rate_of index).answer }
    ensures hertz { hertz.new ≡ (rate_of index).hertz }
{
    let rated = recorder::rate(index);
    *hertz = rated.hertz;
    u8::from(rated.answer)
}

// One number of a type as a number of another.
pub fn tashmirok_convert(from: u8, to: u8, number: i64, converted: &mut i64) -> u8
    ensures answer { result ≡ number_made (convert_of from to number).answer }
    ensures converted { converted.new ≡ (convert_of from to number).value }
{
    let made = recorder::convert(from, to, number);
    *converted = made.value;
    u8::from(made.answer)
}

// One datagram: its header's numbers, its name and the number of its data bytes.
pub fn tashmirok_read(
    datagram: &[u8],
    fields: &mut [u32; 5],
    name: &mut [u8; 16],
    size: &mut usize,
) -> u8
    ensures answer { result ≡ number_of (read_of datagram.now).answer }
    ensures fields { fields.new ≡ fields_of (read_of datagram.now).header }
    ensures name { name.new ≡ (read_of datagram.now).header.name }
    ensures size { size.new ≡ (read_of datagram.now).size }
{
    let read = recorder::read(datagram);
    let h = read.header;
    let n = h.name;
    *fields = [
        u32::from(h.rate),
        u32::from(h.frames),
        u32::from(h.channels),
        u32::from(h.format),
        h.counter,
    ];
    *name = n;
    *size = read.size;
    u8::from(read.answer)
}

// One packet into the lent output.
pub fn tashmirok_write(
    rate: u8,
    frames: u16,
    channels: u16,
    format: u8,
    name: &[u8; 16],
    counter: u32,
    samples: &[u8],
    out: &mut [u8],
    written: &mut usize,
) -> u8
    ensures answer { result ≡ number_made (write_of (header_from rate frames channels format name.now counter) samples.now out.old).answer }
    ensures output { out.new ≡ output_of (header_from rate frames channels format name.now counter) samples.now out.old }
    ensures written { written.new ≡ (write_of (header_from rate frames channels format name.now counter) samples.now out.old).length }
{
    let header = Header {
        rate,
        frames,
        channels,
        format,
        name: *name,
        counter,
    };
    let made = recorder::write(header, samples, out);
    *written = made.length;
    u8::from(made.answer)
}

// The most frames that a packet of a type and channels can have.
pub fn tashmirok_largest(format: u8, channels: u16, frames: &mut u16) -> u8
    ensures answer { result ≡ number_made (largest_of format channels).answer }
    ensures frames { frames.new ≡ (largest_of format channels).frames }
{
    let largest = recorder::largest(format, channels);
    *frames = largest.frames;
    u8::from(largest.answer)
}

// Packet `k` of a track, into the lent output.
pub fn tashmirok_cut(
    rate: u8,
    frames: u16,
    channels: u16,
    format: u8,
    name: &[u8; 16],
    start: u32,
    track: &[u8],
    k: u32,
    out: &mut [u8],
    written: &mut usize,
) -> u8
    ensures answer { result ≡ number_made (cut_of (header_from rate frames channels format name.now start) track.now k out.old).answer }
    ensures output { out.new ≡ cut_output (header_from rate frames channels format name.now start) track.now k out.old }
    ensures written { written.new ≡ (cut_of (header_from rate frames channels format name.now start) track.now k out.old).length }
{
    let header = Header {
        rate,
        frames,
        channels,
        format,
        name: *name,
        counter: start,
    };
    let made = cutter::cut::cut_named(name, header, track, k, out);
    *written = made.length;
    u8::from(made.answer)
}

// How many bytes a take has.
pub fn tashmirok_take_size() -> usize
    ensures { result ≡ 40 }
{
    kept::SIZE
}

// How many bytes a tally has.
pub fn tashmirok_tally_size() -> usize
    ensures { result ≡ 68 }
{
    size_of::<[u32; 17]>()
}

// A cleared tally.
pub fn tashmirok_clear_tally(tally: &mut [u32; 17])
    ensures { tally.new ≡ cleared.counts }
{
    let cleared = recorder::tally();
    let counts = cleared.counts;
    *tally = counts;
}

// The count of an answer's number; 0 where no answer has it.
pub fn tashmirok_count(tally: &[u32; 17], number: u8) -> u32
    ensures { result ≡ count_for tally.now number }
{
    tally.get(answers::count(number)).copied().unwrap_or(0)
}

// A take for a name and a sender's address, on a lent track.
pub fn tashmirok_open(kept: &mut [u8; 40], name: &[u8; 16], address: u32, track: &mut [u8]) -> u8
    ensures answer { result ≡ number_of (open_of name.now address).answer }
    ensures take { kept.new ≡ take_bytes (open_of name.now address).take }
    ensures track { track.new ≡ opened_track name.now track.old }
{
    let opened = recorder::open(*name, address, track);
    kept::store(opened.take, kept);
    u8::from(opened.answer)
}

// One datagram into the take; one count of the tally is raised.
pub fn tashmirok_follow(
    kept: &mut [u8; 40],
    tally: &mut [u32; 17],
    address: u32,
    datagram: &[u8],
    track: &mut [u8],
    laid: &mut [u64; 8],
) -> u8
    ensures answer { result ≡ number_of (followed_for kept.old tally.old address datagram.now track.old).followed.told.answer }
    ensures laid { laid.new ≡ laid_for (followed_for kept.old tally.old address datagram.now track.old).followed.told }
    ensures take { kept.new ≡ kept_after kept.old (followed_for kept.old tally.old address datagram.now track.old).followed }
    ensures tally { tally.new ≡ (followed_for kept.old tally.old address datagram.now track.old).tally.counts }
    ensures track { track.new ≡ followed_track (take_of kept.old) address datagram.now track.old }
{
    let t = kept::load(kept);
    match take::judge::judge(kept::name(kept), t, address, datagram, track::held(track)) {
        Ok(h) => {
            // A take that is followed keeps its name, so the bytes after it are all that can change. The records come when little is left
            // to be kept meanwhile, and not last: with nothing after the loops the compiler sets the answer in each turn of each.
            let place = take::line::place_of(t, h);
            let skipped = take::line::skipped(t, h);
            *laid = [
                place as u64,
                u64::from(h.frames),
                u64::from(skipped),
                0,
                0,
                0,
                0,
                0,
            ];
            kept::store_followed(h, place, kept);
            take::follow::lay(h.format, h.frames, h.channels, datagram, place, track);
            take::counts::raise_in(tally, Answer::Accepted);
            u8::from(Answer::Accepted)
        }
        Err(answer) => {
            take::counts::raise_in(tally, answer);
            *laid = [0; 8];
            u8::from(answer)
        }
    }
}

// What the first packet accepted has fixed: rate index, channels, data type and N.
pub fn tashmirok_shape(kept: &[u8; 40], shape: &mut [u32; 4]) -> u8
    ensures answer { result ≡ number_of (state_for kept.now) }
    ensures shape { shape.new ≡ shape_for kept.now }
{
    let t = kept::load(kept);
    *shape = [0; 4];
    if take::judge::bad_state(kept::name(kept), t) {
        return u8::from(Answer::State);
    }
    if t.begun {
        *shape = [
            u32::from(t.shape.rate),
            u32::from(t.shape.channels),
            u32::from(t.shape.format),
            u32::from(t.line.n),
        ];
    }
    u8::from(Answer::Accepted)
}
