// Follows the stream that `wanted.bin` names through the capture on standard input, and writes its track to `track.bin`.
#![tactic(auto)]

ghost use Rattle.std.specs.Prelude.{◌≡◌, ◌+◌, ◌/◌, ◌^◌, ◌≤◌, ◌<◌};
ghost use Rattle.capture_rules.specs.Records.{record_size};

use answers::Answer;
use arrayvec::ArrayVec;
use block::Follower;
use capture::{BLOCK, RECORDS, TRACK};
use capture_rules::RECORD;
use files::Output;

mod block;

// Room for the lines of a block.
const LINES: usize = RECORDS * lines::ROOM;

// One block: as many records as came, and their lines; how many bytes came. The index goes on to the record after them.
fn follow_some(
    rt: &HostRuntime,
    follower: &mut Follower,
    index: &mut u64,
    track: &mut [u8],
) -> usize
    requires { index.old < 2 ^ 63 }
    ensures { (result ≤ 64768) × (index.new ≡ index.old + result / record_size) }
{
    let mut bytes = [0u8; BLOCK];
    let mut lines = ArrayVec::<u8, LINES>::new();
    let n = files::input(rt, &mut bytes);
    follower.block(*index, &bytes[..n], &mut lines, track);
    files::print(rt, lines.as_slice());
    if n % RECORD != 0 {
        files::print(rt, b"cut\n");
    }
    *index += (n / RECORD) as u64;
    n
}

// The whole capture. No capture has 2^63 records, but a proved loop has to end.
fn follow_all(rt: &HostRuntime, follower: &mut Follower, track: &mut [u8]) {
    let mut index = 0;
    while index < 1 << 63 {
        if follow_some(rt, follower, &mut index, track) < BLOCK {
            break;
        }
    }
}

// What fails is said, and the rest is still done.
fn write_track(rt: &HostRuntime, track: &[u8]) {
    let Ok(mut file) = Output::begin(rt, b"track.bin") else {
        return;
    };
    let _ = file.append(rt, track);
    file.finish(rt);
}

// What `wanted.bin` names, on a lent track; none where no stream can be meant.
fn wanted(rt: &HostRuntime, track: &mut [u8]) -> Option<Follower> {
    let mut bytes = [0u8; 21];
    let n = files::load(rt, b"wanted.bin", &mut bytes);
    let job = bytes[..n].as_array::<20>()?;
    let opened = capture::jobs::open(job, track);
    if opened.answer != Answer::Accepted {
        return None;
    }
    Some(Follower {
        take: opened.take,
        tally: recorder::tally(),
    })
}

fn main(rt: HostRuntime) {
    let mut track = [0u8; TRACK];
    let Some(mut follower) = wanted(&rt, &mut track) else {
        files::print(&rt, b"no stream\n");
        return;
    };
    follow_all(&rt, &mut follower, &mut track);
    let _ = files::input_end(&rt);
    write_track(&rt, &track);
}
