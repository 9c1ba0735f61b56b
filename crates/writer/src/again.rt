// Reading what was written, and writing what was read. Their contracts state the two round trips with no condition on the types.
ghost use Rattle.std.specs.Prelude.{◌≡◌, drop};
ghost use Rattle.wire_rules.specs.Header.{header_size};
ghost use Rattle.wire_rules.specs.Read.{read_of};
ghost use Rattle.wire_rules.specs.Write.{write_of, output_of};
ghost use Rattle.wire_rules.specs.Again.{written_read, Repeats, Repeated};

use wire_rules::{HEADER, Header, Read, Written};

// Writes a packet and reads it back; where the writer refuses, nothing is there to read.
pub fn written_read(h: Header, samples: &[u8], out: &mut [u8]) -> Read
    ensures answer { result ≡ written_read h samples.now out.old }
    ensures output { out.new ≡ output_of h samples.now out.old }
{
    let w = crate::write::write(h, samples, out);
    let n = w.length;
    reader::read::read(&out[..n])
}

// Reads a datagram and writes the header that it has, with its data.
pub fn read_written(d: &[u8], out: &mut [u8]) -> Written
    ensures answer { result ≡ write_of (read_of d.now).header (drop header_size d.now) out.old }
    ensures output { out.new ≡ output_of (read_of d.now).header (drop header_size d.now) out.old }
    ensures repeated { Repeats d.now out.old → Repeated d.now out.old result out.new }
{
    let a = reader::read::read(d);
    crate::write::write(a.header, data(d), out)
}

// The data, from byte 28 on: none in what is shorter.
fn data(d: &[u8]) -> &[u8]
    ensures { result.now ≡ drop header_size d.now }
{
    d.get(HEADER..).unwrap_or(&[])
}
