//! Tests a check whose texts come from sources and readers, in pieces of any size or with an error.

ghost use Rattle.std.specs.Prelude.{◌≡◌, ⊤, None, false};

use edn::{Failed, MAX_LENGTH, Out};
use reading::{In, Source, read_text};
use report::Verdict;
use std::io;
use std::io::{ErrorKind, Read};
use std::test::Fail;
use std::thread::Threads;
use text_check::{ToolFault, WhichText, check_over};

/// One process enqueues 1 and dequeues it.
const HISTORY: &[u8] = b"{:process 0, :type :invoke, :f :enqueue, :value 1}
{:process 0, :type :ok, :f :enqueue, :value 1}
{:process 0, :type :invoke, :f :dequeue}
{:process 0, :type :ok, :f :dequeue, :value 1}
";

const ORDER: &[u8] = b"{:object 0, :order [0 2]}";

const YES: &[u8] = b"yes: 2 operations, 1 objects\nqueue: 1 objects, 2 operations\n";

/// Gives a text in pieces of this size, and then fails or ends.
#[derive(Drop)]
pub(crate) struct Pieces {
    text: &'static [u8],
    size: usize,
    fails: bool,
    failed: bool,
    asked: usize,
}

pub(crate) fn in_pieces(text: &'static [u8], size: usize, fails: bool) -> Pieces
    ensures { result.failed ≡ false }
{
    Pieces {
        text,
        size,
        fails,
        failed: false,
        asked: 0,
    }
}

impl Source for Pieces {
    ghost remaining = { λ _. None };

    ghost broken = { λ s. s.failed };

    ghost refuses = { λ _ _ _. ⊤ };

    fn get(&mut self, buf: &mut [u8]) -> Result<usize, Failed> {
        self.asked = self.asked.wrapping_add(1);
        let given = self.size.min(self.text.len()).min(buf.len());
        if given == 0 && self.fails {
            self.failed = true;
            return Err(Failed);
        }
        let (piece, rest) = self.text.split_at(given);
        buf[..given].copy_from_slice(piece);
        self.text = rest;
        Ok(given)
    }

    fn has_failed(&self) -> bool {
        self.failed
    }
}

/// Whether the texts are judged yes, its lines are written, and both sources are read to their
/// ends.
fn is_yes<R: AllocGlobal + Threads + Sync, H: Source, C: Source>(
    rt: &R,
    history: &mut H,
    order: &mut C,
    workers: u32,
) -> bool
    requires history { H.broken history.old ≡ false }
    requires order { C.broken order.old ≡ false }
{
    let mut sink = Out::new(Vec::new(rt.alloc()));
    let given = check_over(rt, rt.alloc(), history, order, workers, &mut sink);
    let is_so = matches!(given, Ok(Verdict::Yes(_))) && sink.into_inner().as_slice() == YES;
    is_so && !history.has_failed() && !order.has_failed()
}

#[test]
fn both_texts_are_read_from_their_sources(rt: HostRuntime) -> Result<(), Fail> {
    for size in [1, 7, 100_000] {
        for workers in [1, 2] {
            let mut history = in_pieces(HISTORY, size, false);
            let mut order = in_pieces(ORDER, size, false);
            assert!(rt; is_yes(&rt, &mut history, &mut order, workers));
        }
    }
    Ok(())
}

#[test]
fn readers_are_sources(rt: HostRuntime) -> Result<(), Fail> {
    let (mut history, mut order) = (In::new(HISTORY), In::new(ORDER));
    assert!(rt; is_yes(&rt, &mut history, &mut order, 1));
    assert!(rt; history.into_inner().is_empty());
    Ok(())
}

/// A reader that gives the text in pieces of nine bytes, and then fails.
#[derive(Drop)]
struct Broken {
    text: &'static [u8],
    kind: ErrorKind,
}

impl Read for Broken {
    fn read(&mut self, buf: &mut [u8]) -> io::Result<usize> {
        let given = 9.min(self.text.len()).min(buf.len());
        if given == 0 {
            return Err(io::Error::from(self.kind));
        }
        let (piece, rest) = self.text.split_at(given);
        buf[..given].copy_from_slice(piece);
        self.text = rest;
        Ok(given)
    }
}

/// Why a check gives no verdict, if it writes nothing.
fn fault_of<R: AllocGlobal + Threads + Sync, H: Source, C: Source>(
    rt: &R,
    history: &mut H,
    order: &mut C,
) -> Option<ToolFault>
    requires history { H.broken history.old ≡ false }
    requires order { C.broken order.old ≡ false }
{
    let mut sink = Out::new(Vec::new(rt.alloc()));
    let given = check_over(rt, rt.alloc(), history, order, 1, &mut sink);
    if sink.into_inner().is_empty() {
        return given.err();
    }
    None
}

/// The text whose reader fails in mid-stream is named, and the kind of the error is kept.
#[test]
fn readers_that_fail_in_mid_stream(rt: HostRuntime) -> Result<(), Fail> {
    let (text, _) = HISTORY.split_at(HISTORY.len() / 2);
    let kind = ErrorKind::ConnectionReset;
    let (mut history, mut order) = (In::new(Broken { text, kind }), In::new(ORDER));
    let fault = fault_of(&rt, &mut history, &mut order);
    assert!(rt; fault == Some(ToolFault::Read(WhichText::History)));
    assert!(rt; history.has_failed() && !history.is_allocation_failure() && !order.has_failed());
    let (text, _) = ORDER.split_at(ORDER.len() / 2);
    let kind = ErrorKind::OutOfMemory;
    let (mut history, mut order) = (In::new(HISTORY), In::new(Broken { text, kind }));
    let fault = fault_of(&rt, &mut history, &mut order);
    assert!(rt; fault == Some(ToolFault::Read(WhichText::Certificates)));
    assert!(rt; order.has_failed() && order.is_allocation_failure() && !history.has_failed());
    Ok(())
}

/// The history is read first.
#[test]
fn a_source_that_fails_is_named(rt: HostRuntime) -> Result<(), Fail> {
    let (mut history, mut order) = (in_pieces(HISTORY, 9, true), in_pieces(ORDER, 9, true));
    let fault = fault_of(&rt, &mut history, &mut order);
    assert!(rt; fault == Some(ToolFault::Read(WhichText::History)) && order.asked == 0);
    let (mut history, mut order) = (in_pieces(HISTORY, 9, false), in_pieces(ORDER, 9, true));
    let fault = fault_of(&rt, &mut history, &mut order);
    assert!(rt; fault == Some(ToolFault::Read(WhichText::Certificates)));
    Ok(())
}

#[test]
fn a_sink_that_fails_is_told(rt: HostRuntime) -> Result<(), Fail> {
    let mut room = [0; 20];
    let mut sink = Out::new(room.as_mut_slice());
    let (mut history, mut order) = (In::new(HISTORY), In::new(ORDER));
    let given = check_over(&rt, rt.alloc(), &mut history, &mut order, 1, &mut sink);
    assert!(rt; given.err() == Some(ToolFault::Write));
    assert!(rt; room.as_slice() == b"yes: 2 operations, 1".as_slice());
    Ok(())
}

/// Certificates of the history, and the lines of the verdict.
const IN_MEMORY: [(&[u8], &[u8]); 3] = [
    (ORDER, YES),
    (b"", b"no: C1 object 0 has no certificate\n"),
    (b"[0 2]", b"malformed certificates: K1 at form 0\n"),
];

#[test]
fn a_check_of_texts_in_memory_writes_the_verdict(rt: HostRuntime) -> Result<(), Fail> {
    for (order, lines) in IN_MEMORY {
        let mut sink = Out::new(Vec::new(rt.alloc()));
        let (mut history, mut order) = (In::new(HISTORY), In::new(order));
        let given = check_over(&rt, rt.alloc(), &mut history, &mut order, 1, &mut sink);
        assert!(rt; given.is_ok() && sink.into_inner().as_slice() == lines);
    }
    Ok(())
}

/// Gives bytes without an end.
#[derive(Drop)]
struct Endless;

impl Source for Endless {
    ghost remaining = { λ _. None };

    ghost broken = { λ _. false };

    ghost refuses = { λ _ _ _. ⊥ };

    fn get(&mut self, buf: &mut [u8]) -> Result<usize, Failed> {
        Ok(buf.len())
    }

    fn has_failed(&self) -> bool {
        false
    }
}

/// No more is read than one byte past the longest text.
#[test]
fn a_text_without_an_end_is_too_long(rt: HostRuntime) -> Result<(), Fail> {
    let bytes = read_text(rt.alloc(), &mut Endless).map_err(|_| Fail::new("a text is not read"))?;
    assert!(rt; bytes.len() == MAX_LENGTH + 1);
    Ok(())
}
