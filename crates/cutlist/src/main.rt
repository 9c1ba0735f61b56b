// Cuts the track on standard input by the header in `cut.bin`, and writes the packets to `cut.cap` as a capture.
#![tactic(auto)]

use answers::{Answer, Made};
use arrayvec::ArrayVec;
use capture::{BLOCK, RECORDS, TRACK};
use capture_rules::RECORD;
use files::{Output, Said};
use std::fs::File;
use wire_rules::Header;

mod block;

// Why no capture is written, or not all of it.
#[derive(Drop)]
enum Stop {
    NoHeader,
    Refused(Made),
    Failed(Said),
}

impl From<Said> for Stop {
    fn from(said: Said) -> Stop {
        Stop::Failed(said)
    }
}

// What `cut.bin` holds.
#[derive(Clone, Copy)]
struct Job {
    header: Header,
    address: u32,
}

fn load(rt: &HostRuntime) -> Option<Job> {
    let mut bytes = [0u8; 33];
    let n = files::load(rt, b"cut.bin", &mut bytes);
    let job = bytes[..n].as_array::<32>()?;
    let read = capture::jobs::header(job);
    if read.answer != Answer::Accepted {
        return None;
    }
    Some(Job {
        header: read.header,
        address: capture::address(job),
    })
}

// Blocks of records until all packets are written. A track of 2,048 frames has no more than 2,048.
fn write_packets(
    rt: &HostRuntime,
    job: Job,
    track: &[u8],
    file: &mut Output<'_, File>,
) -> Result<(), Said> {
    let mut block = [0u8; BLOCK];
    let mut k = 0;
    while k < 2048 {
        let n = block::next(job.header, track, &mut k, job.address, &mut block);
        file.append(rt, &block[..n * RECORD])?;
        if n < RECORDS {
            break;
        }
    }
    Ok(())
}

// The whole capture; where its first packet is refused, no file is written.
fn write_capture(rt: &HostRuntime, job: Job, track: &[u8]) -> Result<(), Stop> {
    let mut record = [0u8; RECORD];
    let first = capture::cut(job.header, track, 0, job.address, &mut record);
    if first.answer != Made::Done {
        return Err(Stop::Refused(first.answer));
    }
    let mut file = Output::begin(rt, b"cut.cap")?;
    let written = write_packets(rt, job, track, &mut file);
    file.finish(rt);
    Ok(written?)
}

fn cut_all(rt: &HostRuntime) -> Result<(), Stop> {
    let job = load(rt).ok_or(Stop::NoHeader)?;
    let mut track = [0u8; TRACK + 1];
    let length = files::input(rt, &mut track);
    if length > TRACK {
        return Err(Stop::Refused(Made::Number));
    }
    files::input_end(rt)?;
    write_capture(rt, job, &track[..length])
}

// The number of a refusal alone.
fn print_number(rt: &HostRuntime, answer: Made) {
    let mut text = ArrayVec::<u8, 21>::new();
    lines::field(u64::from(u8::from(answer)), b'\n', &mut text);
    files::print(rt, text.as_slice());
}

fn main(rt: HostRuntime) {
    match cut_all(&rt) {
        Err(Stop::NoHeader) => files::print(&rt, b"no header\n"),
        Err(Stop::Refused(answer)) => print_number(&rt, answer),
        Ok(()) | Err(Stop::Failed(_)) => {}
    }
}
