// Reading a datagram.
ghost use Rattle.std.specs.Prelude.{◌≡◌};
ghost use Rattle.lists.specs.Tables.{checked};
ghost use Rattle.wire_rules.specs.Read.{lead_rows, front_rows, length_rows, audio_rows, read_rows, read_of};

use answers::Answer;
use wire_rules::{HEADER, Header, LONGEST, Read};

// Rows 1 to 3.
pub fn check_lead(d: &[u8]) -> Result<(), Answer>
    ensures { result ≡ checked (lead_rows d.now) }
{
    if d.len() < HEADER {
        return Err(Answer::Short);
    }
    if d.len() > LONGEST {
        return Err(Answer::Long);
    }
    if crate::header::is_foreign(d) {
        return Err(Answer::Foreign);
    }
    Ok(())
}

// Rows 1 to 4.
fn check_front(d: &[u8]) -> Result<(), Answer>
    ensures { result ≡ checked (front_rows d.now) }
{
    check_lead(d)?;
    if !wire::name::good(crate::header::name_field(d)) {
        return Err(Answer::Name);
    }
    Ok(())
}

fn check_length(d: &[u8]) -> Result<(), Answer>
    ensures { result ≡ checked (length_rows d.now) }
{
    if d.len() != HEADER + crate::header::size_in(d) {
        return Err(Answer::Length);
    }
    Ok(())
}

// Rows 6 to 11.
pub fn check_audio(d: &[u8]) -> Result<(), Answer>
    ensures { result ≡ checked (audio_rows d.now) }
{
    crate::header::check_fields(d)?;
    check_length(d)
}

fn check(d: &[u8]) -> Result<(), Answer>
    ensures { result ≡ checked (read_rows d.now) }
{
    check_front(d)?;
    check_audio(d)
}

// The first check that refuses gives its answer; else the header and the number of data bytes, which start at byte 28.
pub fn read(d: &[u8]) -> Read
    ensures { result ≡ read_of d.now }
{
    match check(d) {
        Ok(()) => {
            let header = crate::header::fields(d);
            Read {
                answer: Answer::Accepted,
                header,
                size: crate::header::data_size(header),
            }
        }
        Err(answer) => Read {
            answer,
            header: Header::default(),
            size: 0,
        },
    }
}
