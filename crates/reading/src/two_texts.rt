//! The two texts of a command, a history and another one, read one after the other.

ghost use Rattle.std.specs.Prelude.{◌≡◌, false, IfOk, IfErr};
ghost use Rattle.reading.specs.TwoTexts.{AreRead, IsUnread};

use crate::by_workers::history_of_text_by_workers;
use crate::from_source::{ReadFault, read_text};
use crate::text_failure::TextFailure;
use edn::Source;
use history::History;
use std::alloc::Global;
use std::thread::Threads;

/// Which of two sources.
#[derive(Clone, Copy, Debug, PartialEq, Eq)]
pub enum WhichSource {
    First,
    Second,
}

/// Which source was not read, and why.
#[derive(Clone, Copy, Debug, PartialEq, Eq)]
pub struct UnreadSource {
    pub which: WhichSource,
    pub fault: ReadFault,
}

/// Reads the text of a history, makes the history by this many workers, frees its text, and reads
/// another text. Returns the history, or what stopped the reading of its text, and the bytes of the
/// other. The other comes last, so that what makes it can go on working meanwhile.
pub fn read_history_and_text<R: Threads + Sync, H: Source, T: Source>(
    rt: &R,
    alloc: Global,
    history: &mut H,
    other: &mut T,
    workers: u32,
) -> Result<(Result<History, TextFailure>, Vec<u8>), UnreadSource>
    requires history { H.broken history.old ≡ false }
    requires other { T.broken other.old ≡ false }
    ensures read { IfOk result (λ r. AreRead (H.remaining history.old) (H.remaining history.new)
        (T.remaining other.old) (T.remaining other.new) r.0 r.1.items) }
    ensures usable { IfOk result (λ _.
        (H.broken history.new ≡ false) × (T.broken other.new ≡ false)) }
    ensures unread { IfErr result (λ e. IsUnread H.remaining H.broken H.refuses
        T.remaining T.broken T.refuses history.old history.new other.old other.new
        e.which e.fault) }
{
    let text = match read_text(alloc, history) {
        Ok(text) => text,
        Err(fault) => {
            return Err(UnreadSource {
                which: WhichSource::First,
                fault,
            });
        }
    };
    let made = history_of_text_by_workers(rt, alloc, &text, workers);
    drop(text);
    match read_text(alloc, other) {
        Ok(bytes) => Ok((made, bytes)),
        Err(fault) => Err(UnreadSource {
            which: WhichSource::Second,
            fault,
        }),
    }
}
