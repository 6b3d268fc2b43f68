//! The bytes of a text, by what they are for.

ghost use Rattle.std.specs.Prelude.{◌≡◌};
ghost use Rattle.std.specs.List.{list_all};
ghost use Rattle.edn_reader.specs.Bytes as spec;

const SEPARATOR: u8 = 1;

const TOKEN: u8 = 2;

const NAME: u8 = 4;

// For each byte a digit, whose low three bits are the flags above.
static CLASS: [u8; 256] = *b"\
    22222222211221222222222222222222\
    16022222002216626666666666202226\
    26666666666666666666666666602026\
    26666666666666666666666666602022\
    22222222222222222222222222222222\
    22222222222222222222222222222222\
    22222222222222222222222222222222\
    22222222222222222222222222222222";

#[inline]
pub(crate) fn is_separator(b: u8) -> bool
    ensures { result ≡ spec.is_separator b }
{
    CLASS[b as usize] & SEPARATOR != 0
}

#[inline]
pub(crate) fn is_token_byte(b: u8) -> bool
    ensures { result ≡ spec.is_token_byte b }
{
    CLASS[b as usize] & TOKEN != 0
}

#[inline]
pub(crate) fn is_digit(b: u8) -> bool
    ensures { result ≡ spec.is_digit b }
{
    b'0' <= b && b <= b'9'
}

#[inline]
pub(crate) fn is_letter(b: u8) -> bool
    ensures { result ≡ spec.is_letter b }
{
    b'A' <= b && b <= b'Z' || b'a' <= b && b <= b'z'
}

#[inline]
pub(crate) fn is_name_byte(b: u8) -> bool
    ensures { result ≡ spec.is_name_byte b }
{
    CLASS[b as usize] & NAME != 0
}

fn are_name_bytes(bytes: &[u8]) -> bool
    ensures { result ≡ list_all spec.is_name_byte bytes.now }
{
    let mut rest = bytes;
    'bytes: while let [b, tail @ ..] = rest {
        if !is_name_byte(*b) {
            return false;
        }
        rest = tail;
    }
    true
}

#[tactic(auto, unfolding(crate::specs::Bytes::is_name))]
pub(crate) fn is_name(bytes: &[u8]) -> bool
    ensures { result ≡ spec.is_name bytes.now }
{
    match bytes {
        [] => false,
        [b, tail @ ..] => is_letter(*b) && are_name_bytes(tail) && tail.len() <= 63,
    }
}

pub(crate) fn are_digits(bytes: &[u8]) -> bool
    ensures { result ≡ list_all spec.is_digit bytes.now }
{
    let mut rest = bytes;
    'bytes: while let [b, tail @ ..] = rest {
        if !is_digit(*b) {
            return false;
        }
        rest = tail;
    }
    true
}

/// After the digits at the front.
pub(crate) fn after_digits(bytes: &[u8]) -> &[u8] {
    let mut rest = bytes;
    'bytes: while let [b, tail @ ..] = rest {
        if !is_digit(*b) {
            return rest;
        }
        rest = tail;
    }
    rest
}
