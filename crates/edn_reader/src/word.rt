//! What a single word stands for.

ghost use Rattle.std.specs.Prelude.{◌≡◌, ◌≢◌, ◌<◌, ◌≤◌, ◌+◌, ◌-◌, ◌*◌, ◌^◌, IfSome, IfNone};
ghost use Rattle.edn_reader.specs.Spells as spec;
ghost use Rattle.edn_reader.specs.Reading.{integer_of, positive_of, negative_of};

use crate::bytes::{after_digits, are_digits, is_digit};
use crate::fault::Cause;

fn is_decimal(digits: &[u8]) -> bool
    ensures { result ≡ spec.is_decimal digits.now }
{
    match digits {
        [] => false,
        [b] => is_digit(*b),
        [b, tail @ ..] => is_digit(*b) && *b != b'0' && are_digits(tail),
    }
}

/// The value of digits, if it is at most `most`.
#[tactic(auto, using(crate::proofs::Words::value_after_above))]
fn value_within(digits: &[u8], most: u64) -> Option<u64>
    requires below { most < 2 ^ 64 }
    ensures some { IfSome result (λ n. (n ≡ spec.value_after 0 digits.now) × (n ≤ most)) }
    ensures none { IfNone result (most < spec.value_after 0 digits.now) }
{
    let mut value: u64 = 0;
    let mut rest = digits;
    'digits: while let [b, tail @ ..] = rest {
        let digit = u64::from((*b).saturating_sub(b'0'));
        let Some(tenfold) = value.checked_mul(10) else {
            return None;
        };
        let Some(sum) = tenfold.checked_add(digit) else {
            return None;
        };
        value = sum;
        rest = tail;
    }
    if value <= most { Some(value) } else { None }
}

#[tactic(auto, unfolding(crate::specs::Reading::positive_of))]
fn positive(digits: &[u8]) -> Option<i64>
    ensures { result ≡ positive_of digits.now }
{
    if !is_decimal(digits) {
        return None;
    }
    match value_within(digits, 9_223_372_036_854_775_807) {
        Some(value) if value < 9_223_372_036_854_775_808 => Some(value as i64),
        _ => None,
    }
}

#[tactic(auto, unfolding(crate::specs::Reading::negative_of))]
fn negative(digits: &[u8]) -> Option<i64>
    ensures { result ≡ negative_of digits.now }
{
    if !is_decimal(digits) {
        return None;
    }
    match value_within(digits, 9_223_372_036_854_775_808) {
        Some(value) if value < 9_223_372_036_854_775_808 => Some(-(value as i64)),
        Some(_) => Some(i64::MIN),
        None => None,
    }
}

#[tactic(auto, unfolding(crate::specs::Reading::integer_of))]
pub(crate) fn integer(word: &[u8]) -> Option<i64>
    ensures { result ≡ integer_of word.now }
{
    match word {
        [b'+', digits @ ..] => positive(digits),
        [b'-', digits @ ..] => negative(digits),
        [_, ..] => positive(word),
        [] => None,
    }
}

/// What is wrong with a word that is no element and begins with no colon.
pub(crate) fn fault_of(word: &[u8]) -> Cause
    ensures { result ≢ Cause.NoMemory }
{
    let digits = match word {
        [b'+', tail @ ..] => tail,
        [b'-', tail @ ..] => tail,
        _ => word,
    };
    let remains = after_digits(digits);
    if remains.len() == digits.len() {
        return Cause::NotInProfile;
    }
    match remains {
        [b'.', ..] | [b'e', ..] | [b'E', ..] | [b'N', ..] | [b'M', ..] => Cause::NotInProfile,
        [] if is_decimal(digits) => Cause::NumberRange,
        _ => Cause::BadToken,
    }
}
