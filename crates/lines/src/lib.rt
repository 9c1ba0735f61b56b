// The lines that the programs print, each written after what a text of fixed room holds.
#![tactic(auto)]

ghost use Rattle.std.specs.Prelude.{◌≡◌, ◌+◌, ◌<◌, ◌≤◌, ◌++◌};
ghost use Rattle.arrayvec.specs.ArrayVec.{array_vec_len};
ghost use Rattle.lines.specs.Lines.{decimal_of, field_of, line_of, line_room};

use arrayvec::ArrayVec;
use itoa::Buffer;

// Room for any line.
pub const ROOM: usize = 105;

// A number in decimal.
fn number<const CAP: usize>(n: u64, out: &mut ArrayVec<u8, CAP>)
    requires { array_vec_len out.old + 20 ≤ CAP }
    ensures text { out.new.items ≡ out.old.items ++ decimal_of n }
    ensures within { array_vec_len out.new ≤ array_vec_len out.old + 20 }
{
    out.try_extend_from_slice(Buffer::new().format(n).as_bytes())
        .unwrap();
}

// A number and the byte after it: a space, or a line feed.
pub fn field<const CAP: usize>(n: u64, after: u8, out: &mut ArrayVec<u8, CAP>)
    requires { array_vec_len out.old + 21 ≤ CAP }
    ensures text { out.new.items ≡ out.old.items ++ field_of n after }
    ensures within { array_vec_len out.new ≤ array_vec_len out.old + 21 }
{
    number(n, out);
    out.push(after);
}

// The line of one capture record.
pub fn line<const CAP: usize>(
    index: u64,
    answer: u8,
    place: usize,
    frames: u16,
    skipped: u32,
    out: &mut ArrayVec<u8, CAP>,
)
    requires { array_vec_len out.old + line_room ≤ CAP }
    ensures text { out.new.items ≡ out.old.items ++ line_of index answer place frames skipped }
    ensures within { array_vec_len out.new ≤ array_vec_len out.old + line_room }
{
    field(index, b' ', out);
    field(u64::from(answer), b' ', out);
    field(place as u64, b' ', out);
    field(u64::from(frames), b' ', out);
    field(u64::from(skipped), b'\n', out);
}
