// The programs' job files: an address, then a name or a header.
ghost use Rattle.std.specs.Prelude.{◌≡◌, take, drop};
ghost use Rattle.wire_rules.specs.Header.{header_size, header_alone};
ghost use Rattle.take_rules.specs.Take.{open_of, opened_track};
ghost use Rattle.capture_rules.specs.Records.{address_of};

use take_rules::Opened;
use wire_rules::HeaderRead;

// A take for what the 20 bytes of `wanted.bin` name.
pub fn open(wanted: &[u8; 20], track: &mut [u8]) -> Opened
    ensures answer { result ≡ open_of (take 16 (drop 4 wanted.now)) (address_of wanted.now) }
    ensures track { track.new ≡ opened_track (take 16 (drop 4 wanted.now)) track.old }
{
    let mut name = [0u8; 16];
    name.copy_from_slice(&wanted[4..]);
    recorder::open(name, crate::address(wanted), track)
}

// The header in the 32 bytes of `cut.bin`, by rows 3, 4 and 6 to 10.
pub fn header(job: &[u8; 32]) -> HeaderRead
    ensures { result ≡ header_alone (take header_size (drop 4 job.now)) }
{
    reader::header::alone(&job[4..])
}
