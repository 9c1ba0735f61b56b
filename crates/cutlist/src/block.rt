// A block of records.
ghost use Rattle.std.specs.Prelude.{◌≡◌, ◌+◌, ◌^◌, ◌<◌};
ghost use Rattle.cutlist.specs.Block.{Filled};

use answers::Made;
use capture::{BLOCK, RECORDS};
use capture_rules::RECORD;
use wire_rules::Header;

// The records of packets k, k + 1, .. until the block is full or the packets are all cut; how many there are.
pub fn fill(header: Header, track: &[u8], k: u32, address: u32, block: &mut [u8; BLOCK]) -> usize
    requires { k < 2 ^ 31 }
    ensures { Filled header track.now address k 44 block.old block.new result }
{
    for n in 0..RECORDS {
        let a = n * RECORD;
        let record = &mut block[a..a + RECORD];
        let made = capture::cut(header, track, k + n as u32, address, record);
        if made.answer != Made::Done {
            return n;
        }
    }
    RECORDS
}

// The same, after which `k` is the packet that follows them.
pub fn next(
    header: Header,
    track: &[u8],
    k: &mut u32,
    address: u32,
    block: &mut [u8; BLOCK],
) -> usize
    requires { k.old < 2 ^ 31 }
    ensures block { Filled header track.now address k.old 44 block.old block.new result }
    ensures k { k.new ≡ k.old + result }
{
    let n = fill(header, track, *k, address, block);
    *k += n as u32;
    n
}
