//! Why a history was not divided.

ghost use Rattle.std.specs.Prelude.{◌≡◌, ◌↔◌, IsTrue};
ghost use Rattle.shards.specs.UnderWay.{EndsInsideForm, IsFaultFrom};

use edn::{EdnFault, FaultKind};
use history::{HistoryFaultKind, TextFault};
use std::alloc::AllocError;

/// Why a history was not divided.
#[derive(Clone, Copy, Debug, PartialEq, Eq)]
pub enum SplitFault {
    /// Its source failed.
    Read,
    /// The folder failed.
    Write,
    /// Its text, as far as it was read, is malformed.
    Malformed(TextFault),
    /// It has a map on this object, which needs more shards: there, two objects of a shard could
    /// have the same name.
    TooFewShards(u32),
    /// An allocation failed, or the text has more bytes than can be counted.
    NoMemory,
}

impl From<AllocError> for SplitFault {
    ghost use Rattle.shards.specs.declared.fault.SplitFault.TheVariants as fault;

    ghost from_gives = { λ _ e. e ≡ fault.NoMemory };

    fn from(_refused: AllocError) -> SplitFault {
        SplitFault::NoMemory
    }
}

/// Why a piece of a text was not divided.
#[derive(Clone, Copy)]
pub(crate) enum PieceFault {
    Malformed(TextFault),
    TooFewShards(u32),
}

/// Whether the text ends inside a form. More text can complete the form; it can repair no other
/// fault.
pub(crate) fn ends_inside_form(fault: PieceFault) -> bool
    ensures { IsTrue result ↔ EndsInsideForm fault }
{
    match fault {
        PieceFault::Malformed(TextFault::Text(fault)) => match fault.kind {
            FaultKind::Unfinished => true,
            FaultKind::BadUtf8
            | FaultKind::BadToken
            | FaultKind::NumberRange
            | FaultKind::DuplicateKey
            | FaultKind::OddMap
            | FaultKind::KeyKind
            | FaultKind::TooDeep
            | FaultKind::NotInProfile
            | FaultKind::TooLong
            | FaultKind::NoMemory => false,
        },
        PieceFault::Malformed(TextFault::Maps(_)) | PieceFault::TooFewShards(_) => false,
    }
}

/// The fault of a piece that begins at this byte of the full history, as one of the full history.
pub(crate) fn fault_from(start: usize, fault: PieceFault) -> SplitFault
    ensures { IsFaultFrom start fault result }
{
    match fault {
        PieceFault::Malformed(
            TextFault::Text(
                EdnFault {
                    kind: FaultKind::NoMemory,
                    place: _,
                },
            ),
        ) => SplitFault::NoMemory,
        PieceFault::Malformed(TextFault::Text(EdnFault { kind, place })) => {
            match start.checked_add(place) {
                Some(place) => SplitFault::Malformed(TextFault::Text(EdnFault { kind, place })),
                None => SplitFault::NoMemory,
            }
        }
        PieceFault::Malformed(TextFault::Maps(fault)) => match fault.kind {
            HistoryFaultKind::NoMemory => SplitFault::NoMemory,
            _ => SplitFault::Malformed(TextFault::Maps(fault)),
        },
        PieceFault::TooFewShards(object) => SplitFault::TooFewShards(object),
    }
}
