// The bits of bytes 4 and 7.
ghost use Rattle.std.specs.Prelude.{◌≡◌, ◌<◌};
ghost use Rattle.wire_rules.specs.Header.{rate_bits, sub_bits, joined_four, format_bits, reserved_bit, codec_bits, joined_seven};

pub fn rate(b: u8) -> u8
    ensures { result ≡ rate_bits b }
{
    b & 0x1f
}

pub fn sub_protocol(b: u8) -> u8
    ensures { result ≡ sub_bits b }
{
    b >> 5
}

pub fn join_four(rate: u8, sub: u8) -> u8
    requires { (rate < 32) × (sub < 8) }
    ensures { result ≡ joined_four rate sub }
{
    rate | sub << 5
}

pub fn format(b: u8) -> u8
    ensures { result ≡ format_bits b }
{
    b & 0x07
}

pub fn reserved(b: u8) -> u8
    ensures { result ≡ reserved_bit b }
{
    b >> 3 & 1
}

pub fn codec(b: u8) -> u8
    ensures { result ≡ codec_bits b }
{
    b >> 4
}

pub fn join_seven(format: u8, reserved: u8, codec: u8) -> u8
    requires { (format < 8) × (reserved < 2) × (codec < 16) }
    ensures { result ≡ joined_seven format reserved codec }
{
    format | reserved << 3 | codec << 4
}
