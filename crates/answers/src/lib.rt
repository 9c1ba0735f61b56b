// The numbers the bench sees: what every operation answers, and the paper's number of each answer.
#![tactic(auto)]

ghost use Rattle.std.specs.Prelude.{◌≡◌};
ghost use Rattle.answers.specs.Numbers.{number_of, number_made, count_of};

// What reading, opening and following answer.
#[derive(Clone, Copy, Debug, PartialEq, Eq)]
pub enum Answer {
    Accepted,
    Short,
    Long,
    Foreign,
    Name,
    OtherStream,
    SubProtocol,
    Codec,
    Reserved,
    Rate,
    DataType,
    Length,
    Channels,
    Shape,
    Late,
    Beyond,
    State,
}

// What converting, writing and cutting answer.
#[derive(Clone, Copy, Debug, PartialEq, Eq)]
pub enum Made {
    Done,
    Form,
    Big,
    Data,
    Room,
    Number,
    Sample,
}

impl From<Answer> for u8 {
    ghost from_gives = { λ a n. n ≡ number_of a };

    fn from(answer: Answer) -> u8 {
        match answer {
            Answer::Accepted => 0,
            Answer::Short => 1,
            Answer::Long => 2,
            Answer::Foreign => 3,
            Answer::Name => 4,
            Answer::OtherStream => 5,
            Answer::SubProtocol => 6,
            Answer::Codec => 7,
            Answer::Reserved => 8,
            Answer::Rate => 9,
            Answer::DataType => 10,
            Answer::Length => 11,
            Answer::Channels => 12,
            Answer::Shape => 13,
            Answer::Late => 14,
            Answer::Beyond => 15,
            Answer::State => 16,
        }
    }
}

// Where the count of an answer's number stands in the house tally; past its end where no count is kept for the number.
pub fn count(number: u8) -> usize
    ensures { result ≡ count_of number }
{
    usize::from(number)
}

impl From<Made> for u8 {
    ghost from_gives = { λ m n. n ≡ number_made m };

    fn from(made: Made) -> u8 {
        match made {
            Made::Done => 0,
            Made::Form => 20,
            Made::Big => 21,
            Made::Data => 22,
            Made::Room => 23,
            Made::Number => 24,
            Made::Sample => 26,
        }
    }
}
