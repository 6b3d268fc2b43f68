//! What can be wrong with a text.

ghost use Rattle.std.specs.Prelude.{◌≡◌, ◌≢◌, ◌↔◌, ◌++◌, ◌-◌, length, Some, codes, decimal};

use std::alloc::{AllocError, AllocFailed};
use std::fmt;

/// What is wrong with a text, or that an allocation failed, and where. A kind prints as its
/// number, `E1` to `E11`. Which of several faults is named, and its place, is tested and not
/// proved.
#[derive(Clone, Copy, Debug, PartialEq, Eq)]
pub enum FaultKind {
    /// E1: the text is not UTF-8. At the first byte that begins no whole character.
    BadUtf8,
    /// E2: the text ends inside a string, a vector or a map. At the text's length.
    Unfinished,
    /// E3: a token that begins with a colon and is no keyword, or that begins with a digit, or a
    /// sign and a digit, and is no integer, as `007` (but see E4 and E9); a bracket that closes
    /// nothing or the wrong bracket. At the first byte of the token or bracket. Also an escape in a
    /// string that is none of the five, at its backslash.
    BadToken,
    /// E4: an integer past 64 bits. At the first byte of the token.
    NumberRange,
    /// E5: a key that is also earlier in the same map. At the first byte of the later key.
    DuplicateKey,
    /// E6: a map is closed after a key without its value. At the `}`.
    OddMap,
    /// E7: a map's key is an element, but no keyword. At its first byte. This comes before any
    /// fault inside the key.
    KeyKind,
    /// E8: a 17th bracket is opened. At that bracket.
    TooDeep,
    /// E9: `(` or `)`; a token that begins with a digit, or a sign and a digit, whose digits are
    /// followed by `.`, `e`, `E`, `N` or `M`; any other token that is no element. At its first
    /// byte.
    NotInProfile,
    /// E10: the text is longer than 268,435,456 bytes. At 0.
    TooLong,
    /// E11: an allocation failed. At the first byte of the token that was being read, or of the
    /// element whose form was being made.
    NoMemory,
}

impl FaultKind {
    ghost use Rattle.edn_reader.specs.Faults.{number_of};

    /// The number after the letter E.
    pub fn number(self) -> u8
        ensures { result ≡ number_of self }
    {
        match self {
            FaultKind::BadUtf8 => 1,
            FaultKind::Unfinished => 2,
            FaultKind::BadToken => 3,
            FaultKind::NumberRange => 4,
            FaultKind::DuplicateKey => 5,
            FaultKind::OddMap => 6,
            FaultKind::KeyKind => 7,
            FaultKind::TooDeep => 8,
            FaultKind::NotInProfile => 9,
            FaultKind::TooLong => 10,
            FaultKind::NoMemory => 11,
        }
    }
}

impl fmt::Display for FaultKind {
    ghost use Rattle.edn_reader.specs.Faults.{text_of_kind};

    ghost output = { λ k. Some (text_of_kind k) };

    fn fmt<W: fmt::Write>(&self, f: &mut fmt::Formatter<W>) -> fmt::Result {
        let number = self.number();
        write!(f, "E{number}")
    }
}

/// A fault, and the byte where it is, counted from 0. It prints as `E4 at byte 19`.
#[derive(Clone, Copy, Debug, PartialEq, Eq)]
pub struct EdnFault {
    pub kind: FaultKind,
    pub place: usize,
}

impl fmt::Display for EdnFault {
    ghost use Rattle.edn_reader.specs.Faults.{text_of_kind};

    ghost output = { λ f. Some (text_of_kind f.kind ++ codes " at byte " ++ decimal f.place) };

    fn fmt<W: fmt::Write>(&self, f: &mut fmt::Formatter<W>) -> fmt::Result {
        let number = self.kind.number();
        let place = self.place;
        write!(f, "E{number} at byte {place}")
    }
}

/// Why reading stops, in a text that is UTF-8 and not too long.
#[derive(Clone, Copy, Debug, PartialEq, Eq)]
pub enum Cause {
    Unfinished,
    BadToken,
    NumberRange,
    DuplicateKey,
    OddMap,
    KeyKind,
    TooDeep,
    NotInProfile,
    NoMemory,
}

impl Cause {
    fn kind(self) -> FaultKind
        ensures memory { (self ≡ Cause.NoMemory) ↔ (result ≡ FaultKind.NoMemory) }
        ensures short { result ≢ FaultKind.TooLong }
    {
        match self {
            Cause::Unfinished => FaultKind::Unfinished,
            Cause::BadToken => FaultKind::BadToken,
            Cause::NumberRange => FaultKind::NumberRange,
            Cause::DuplicateKey => FaultKind::DuplicateKey,
            Cause::OddMap => FaultKind::OddMap,
            Cause::KeyKind => FaultKind::KeyKind,
            Cause::TooDeep => FaultKind::TooDeep,
            Cause::NotInProfile => FaultKind::NotInProfile,
            Cause::NoMemory => FaultKind::NoMemory,
        }
    }
}

impl From<AllocError> for Cause {
    ghost use Rattle.edn_reader.specs.declared.fault.Cause.TheVariants.{NoMemory};

    ghost from_gives = { λ _ e. e ≡ NoMemory };

    fn from(_e: AllocError) -> Cause {
        Cause::NoMemory
    }
}

impl<T: Drop> From<AllocFailed<T>> for Cause {
    ghost use Rattle.edn_reader.specs.declared.fault.Cause.TheVariants.{NoMemory};

    ghost from_gives = { λ _ e. e ≡ NoMemory };

    fn from(_e: AllocFailed<T>) -> Cause {
        Cause::NoMemory
    }
}

/// A cause, and how much of the text was left where it is.
#[derive(Clone, Copy, Debug, PartialEq, Eq)]
pub struct Stop {
    pub cause: Cause,
    pub left: usize,
}

impl Stop {
    /// Stops at the front of what is left.
    pub fn at(cause: Cause, rest: &[u8]) -> Stop
        ensures cause { result.cause ≡ cause }
        ensures left { result.left ≡ length rest.now }
    {
        Stop {
            cause,
            left: rest.len(),
        }
    }

    /// Stops at the end of the text.
    pub fn at_end() -> Stop
        ensures { result.cause ≡ Cause.Unfinished }
    {
        Stop {
            cause: Cause::Unfinished,
            left: 0,
        }
    }

    /// The fault, in a text of this length.
    pub fn fault(self, length: usize) -> EdnFault
        ensures memory { (self.cause ≡ Cause.NoMemory) ↔ (result.kind ≡ FaultKind.NoMemory) }
        ensures short { result.kind ≢ FaultKind.TooLong }
        ensures place { result.place ≡ length - self.left }
    {
        EdnFault {
            kind: self.cause.kind(),
            place: length.saturating_sub(self.left),
        }
    }
}
