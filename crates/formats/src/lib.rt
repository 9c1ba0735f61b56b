// The sample-format type: what the index of a data type on the wire stands for.
#![tactic(auto)]

ghost use Rattle.std.specs.Prelude.{◌≡◌, ◌≤◌};
ghost use Rattle.formats.specs.Formats.{format_of, may_read, may_send, may_convert, whole_size, size_of, size_at, width_of, lowest_of, highest_of, middle_of, has};

// The whole numbers, each with its own size, width, lowest and highest number.
#[derive(Clone, Copy, Debug, PartialEq, Eq)]
pub enum Integer {
    Unsigned8,
    Signed16,
    Signed24,
    Signed32,
}

// A data type: a whole number, or another that is recognised and refused.
#[derive(Clone, Copy, Debug, PartialEq, Eq)]
pub enum Format {
    Whole(Integer),
    Other,
}

impl Integer {
    // The bytes of a sample.
    pub fn size(self) -> usize
        ensures { result ≡ whole_size self }
    {
        match self {
            Integer::Unsigned8 => 1,
            Integer::Signed16 => 2,
            Integer::Signed24 => 3,
            Integer::Signed32 => 4,
        }
    }

    // The bits of a sample.
    pub fn width(self) -> u32
        ensures { result ≡ width_of self }
    {
        match self {
            Integer::Unsigned8 => 8,
            Integer::Signed16 => 16,
            Integer::Signed24 => 24,
            Integer::Signed32 => 32,
        }
    }

    pub fn lowest(self) -> i64
        ensures { result ≡ lowest_of self }
    {
        match self {
            Integer::Unsigned8 => 0,
            Integer::Signed16 => -32768,
            Integer::Signed24 => -8388608,
            Integer::Signed32 => -2147483648,
        }
    }

    pub fn highest(self) -> i64
        ensures { result ≡ highest_of self }
    {
        match self {
            Integer::Unsigned8 => 255,
            Integer::Signed16 => 32767,
            Integer::Signed24 => 8388607,
            Integer::Signed32 => 2147483647,
        }
    }

    // The number that stands for 0.
    pub fn middle(self) -> u8
        ensures { result ≡ middle_of self }
    {
        match self {
            Integer::Unsigned8 => 128,
            Integer::Signed16 => 0,
            Integer::Signed24 => 0,
            Integer::Signed32 => 0,
        }
    }

    // Whether `n` is a number of the type.
    pub fn has(self, n: i64) -> bool
        ensures { result ≡ has self n }
    {
        (self.lowest()..=self.highest()).contains(&n)
    }
}

impl From<u8> for Format {
    ghost from_gives = { λ t f. f ≡ format_of t };

    #[tactic(auto, unfolding(crate::specs::Formats::format_of))]
    fn from(t: u8) -> Format {
        match t {
            0 => Format::Whole(Integer::Unsigned8),
            1 => Format::Whole(Integer::Signed16),
            2 => Format::Whole(Integer::Signed24),
            3 => Format::Whole(Integer::Signed32),
            _ => Format::Other,
        }
    }
}

impl Format {
    // The highest index of a type that may be read, be sent and be converted.
    const LAST_READ: u8 = 3;

    const LAST_SENT: u8 = 3;

    const LAST_CONVERTED: u8 = 3;

    #[tactic(auto, unfolding(crate::specs::Formats::may_read))]
    pub fn may_read(t: u8) -> bool
        ensures { result ≡ may_read t }
    {
        t <= Format::LAST_READ
    }

    #[tactic(auto, unfolding(crate::specs::Formats::may_send))]
    pub fn may_send(t: u8) -> bool
        ensures { result ≡ may_send t }
    {
        t <= Format::LAST_SENT
    }

    #[tactic(auto, unfolding(crate::specs::Formats::may_convert))]
    pub fn may_convert(t: u8) -> bool
        ensures { result ≡ may_convert t }
    {
        t <= Format::LAST_CONVERTED
    }

    // The bytes of a sample.
    pub fn size(self) -> usize
        ensures { (result ≡ size_of self) × (result ≤ 4) }
    {
        match self {
            Format::Whole(f) => f.size(),
            Format::Other => 0,
        }
    }

    // The same by the type's index.
    pub fn size_at(t: u8) -> usize
        ensures { (result ≡ size_at t) × (result ≤ 4) }
    {
        Format::from(t).size()
    }
}
