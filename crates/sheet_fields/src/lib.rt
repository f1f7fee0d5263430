// The fields of a run sheet's line, by the definitions of sheet_law:
// words compared, a text cut at its first space, decimals and pitches read.
// Every public function is total.
#![tactic(auto)]

ghost use Rattle.std.specs.Prelude.{◌-◌, ◌≡◌, ◌==◌};
ghost use Rattle.std.specs.List.{before_first, after_first};
ghost use Rattle.calls.specs.Numbers.{pitch_half, number_max};
ghost use Rattle.sheet_law.specs.Text.{same_text};
ghost use Rattle.sheet_law.specs.Reading.{up_to_space, after_space, digits as Reading·digits, plain, at_most, negative as Reading·negative, positive as Reading·positive, angle as Reading·angle};

use calls::{PITCH_HALF, Pitch};

const SPACE: u8 = b' ';

const MINUS: u8 = b'-';

const DIGIT_0: u8 = b'0';

// The greatest pitch that its type holds.
const PITCH_MAX: u64 = PITCH_HALF - 1;

// Whether two texts are the same.
pub fn same(s: &[u8], w: &[u8]) -> bool
    ensures { result ≡ same_text s.now w.now }
{
    s == w
}

// A text cut at the first byte b: the text before it and the text after it.
pub fn split_at_byte(s: &[u8], b: u8) -> (&[u8], &[u8])
    ensures before { result.0.now ≡ before_first (λ x. x == b) s.now }
    ensures after { result.1.now ≡ after_first (λ x. x == b) s.now }
{
    match s.iter().position(|&x| x == b) {
        Some(i) => (&s[..i], &s[i + 1..]),
        None => (s, &[]),
    }
}

pub fn split_at_space(s: &[u8]) -> (&[u8], &[u8])
    ensures before { result.0.now ≡ up_to_space s.now }
    ensures after { result.1.now ≡ after_space s.now }
{
    split_at_byte(s, SPACE)
}

// The number that digits spell, read from the left, where 64 bits hold it.
fn digits(s: &[u8]) -> Option<u64>
    ensures { result ≡ at_most number_max (Reading·digits 0 s.now) }
{
    let mut n: u64 = 0;
    for &b in s {
        if !b.is_ascii_digit() {
            return None;
        }
        let d = u64::from(b - DIGIT_0);
        n = n.checked_mul(10)?.checked_add(d)?;
    }
    Some(n)
}

// A plain decimal without leading zeros, of at most a number.
pub fn number(s: &[u8], most: u64) -> Option<u64>
    ensures { result ≡ at_most most (plain s.now) }
{
    match s {
        [] => None,
        [DIGIT_0, _, ..] => None,
        _ => digits(s).filter(|&n| n <= most),
    }
}

// What stands after a minus: a decimal that is not 0. It may be one more than the greatest pitch.
#[tactic(auto, using(sheet_law::proofs::Widths::at_most_bound))]
fn negative(s: &[u8]) -> Option<Pitch>
    ensures { result ≡ Reading·negative (at_most pitch_half (plain s.now)) }
{
    match number(s, PITCH_HALF)? {
        0 => None,
        v => Some(-1 - (v - 1) as Pitch),
    }
}

#[tactic(auto, using(sheet_law::proofs::Widths::at_most_bound))]
fn positive(s: &[u8]) -> Option<Pitch>
    ensures { result ≡ Reading·positive (at_most (pitch_half - 1) (plain s.now)) }
{
    Some(number(s, PITCH_MAX)? as Pitch)
}

// A pitch: a decimal, or a minus and a decimal that is not 0.
pub fn angle(s: &[u8]) -> Option<Pitch>
    ensures { result ≡ Reading·angle s.now }
{
    match s {
        [MINUS, rest @ ..] => negative(rest),
        _ => positive(s),
    }
}
