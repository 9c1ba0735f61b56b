// Converting one number; its widening and narrowing, and samples as slots, are modules of their own.
#![tactic(auto)]

ghost use Rattle.std.specs.Prelude.{◌≡◌, true, false, pos, MatchResult, IfOk, IfErr};
ghost use Rattle.formats.specs.Formats.{format_of, may_convert, has};
ghost use Rattle.sample_rules.specs.Convert.{converted, convert_of};
ghost use Rattle.sample_rules.specs.Nearest.{NearestAs};

use answers::Made;
use formats::{Format, Integer};
use sample_rules::Converted;

pub mod numbers;
pub mod slots;

// The number `n` of the type `f` as a number of the type `t`.
fn between(f: Integer, t: Integer, n: i64) -> i64
    requires { has f n ≡ true }
    ensures { result ≡ converted f t n }
{
    let centred = (n - i64::from(f.middle())) as i32;
    let x = numbers::rescale(centred, f.width(), t.width());
    i64::from(x) + i64::from(t.middle())
}

// The whole numbers of an index that may be converted.
fn convertible(t: u8) -> Result<Integer, Made>
    ensures { MatchResult result (λ f. (may_convert t ≡ true) × (format_of t ≡ Format.Whole f)) (λ a. (may_convert t ≡ false) × (a ≡ Made.Form)) }
{
    if !Format::may_convert(t) {
        return Err(Made::Form);
    }
    match Format::from(t) {
        Format::Whole(f) => Ok(f),
        Format::Other => Err(Made::Form),
    }
}

fn number(from: u8, to: u8, n: i64) -> Result<i64, Made>
    ensures given { IfOk result (λ x. record { answer = Made.Done; value = x } ≡ convert_of from to n) }
    ensures refused { IfErr result (λ a. record { answer = a; value = pos 0 } ≡ convert_of from to n) }
{
    let f = convertible(from)?;
    let t = convertible(to)?;
    if !f.has(n) {
        return Err(Made::Sample);
    }
    Ok(between(f, t, n))
}

// The number `n` of the type `from` as a number of the type `to`; zero beside a refusal.
pub fn convert(from: u8, to: u8, n: i64) -> Converted
    ensures computes { result ≡ convert_of from to n }
    ensures nearest { result.answer ≡ Made.Done → NearestAs (format_of from) (format_of to) n result.value }
{
    match number(from, to, n) {
        Ok(value) => Converted {
            answer: Made::Done,
            value,
        },
        Err(answer) => Converted { answer, value: 0 },
    }
}
