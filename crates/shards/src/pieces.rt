//! A text of any length, read in pieces, each of which ends before a line feed.

ghost use Rattle.std.specs.Prelude.{◌≡◌, ◌<◌, [], false, length, get_or, take, vec_len};
ghost use Rattle.std.specs.Prelude.{IfSome, IfErr, OnOk};
ghost use Rattle.edn_reader.specs.Datum.{max_length};

use crate::fault::SplitFault;
use edn::{EdnFault, FaultKind, MAX_LENGTH, Source};
use history::TextFault;
use std::alloc::Global;

/// How many bytes a source is asked for at a time.
const BUFFER_LENGTH: usize = 65_536;

/// What was read of a text and is not divided yet.
#[derive(Drop)]
pub(crate) struct Pieces {
    text: Vec<u8>,
    /// How many bytes of the full history are before it.
    start: usize,
    /// Whether the full history has no more.
    is_ended: bool,
    /// How long it is to be before a piece of it is cut.
    wanted: usize,
    /// How long it is to be at first after each piece.
    least: usize,
}

/// The place of the last line feed.
fn last_feed(text: &[u8]) -> Option<usize>
    ensures { IfSome result (λ k. (k < length text.now) × (get_or text.now k 0 ≡ 10)) }
{
    for place in (0..text.len()).rev() {
        if text[place] == b'\n' {
            return Some(place);
        }
    }
    None
}

/// The place of the last line feed that a map follows at once.
fn last_feed_before_map(text: &[u8]) -> Option<usize>
    ensures { IfSome result (λ k. (k < length text.now) × (get_or text.now k 0 ≡ 10)) }
{
    let mut next = 0;
    for place in (0..text.len()).rev() {
        let byte = text[place];
        if byte == b'\n' && next == b'{' {
            return Some(place);
        }
        next = byte;
    }
    None
}

impl Pieces {
    ghost use Rattle.shards.specs.declared.fault.SplitFault.TheVariants.{Malformed, NoMemory};
    ghost use Rattle.shards.specs.SplitFaults.{IsSplitFailureOf};
    ghost use Rattle.shards.specs.UnderWay.{IsOfHost, PassesPiece, ReadsOn, StaysAs, too_long_at};

    /// Nothing was read. A piece is cut once this many bytes were read.
    pub fn new(alloc: Global, least: usize) -> Pieces
        ensures text { result.text.items ≡ [] }
        ensures start { result.start ≡ 0 }
        ensures going { result.is_ended ≡ false }
    {
        Pieces {
            text: Vec::new(alloc),
            start: 0,
            is_ended: false,
            wanted: least.max(1),
            least: least.max(1),
        }
    }

    /// Whether all of the text was read.
    pub fn is_ended(&self) -> bool
        ensures { result ≡ self.now.is_ended }
    {
        self.is_ended
    }

    /// What was read and is not divided yet.
    pub fn text(&self) -> &[u8]
        ensures { result.now ≡ self.now.text.items }
    {
        self.text.as_slice()
    }

    /// The byte of the full history at which `text` begins.
    pub fn start(&self) -> usize
        ensures { result ≡ self.now.start }
    {
        self.start
    }

    /// Reads until there is enough for a piece, or the source ends.
    pub fn read<F: Source>(&mut self, alloc: Global, source: &mut F) -> Result<(), SplitFault>
        requires going { self.old.is_ended ≡ false }
        requires source { F.broken source.old ≡ false }
        ensures read { OnOk result
            (ReadsOn self.old self.new (F.remaining source.old) (F.remaining source.new)) }
        ensures usable { OnOk result (F.broken source.new ≡ false) }
        ensures fault { IfErr result IsOfHost }
        ensures failed { IfErr result (λ e. IsSplitFailureOf e (F.broken source.new) false) }
    {
        let mut buffer = vec![in alloc; 0; BUFFER_LENGTH]?;
        while self.text.len() < self.wanted {
            let Ok(given) = source.get(&mut buffer) else {
                return Err(SplitFault::Read);
            };
            if given == 0 {
                self.is_ended = true;
                return Ok(());
            }
            self.text.extend_from_slice(&buffer[..given])?;
        }
        Ok(())
    }

    /// The length of the next piece, which ends before a line feed. A map on several lines mostly
    /// has no line that begins with a brace but its first, so it is not cut.
    pub fn next_length(&self) -> Option<usize>
        ensures { IfSome result (λ k.
            (k < length self.now.text.items) × (get_or self.now.text.items k 0 ≡ 10)) }
    {
        match last_feed_before_map(&self.text) {
            Some(place) => Some(place),
            None => last_feed(&self.text),
        }
    }

    /// Passes over a piece of this length, and the line feed after it.
    pub fn pass(&mut self, alloc: Global, length: usize) -> Result<(), SplitFault>
        requires within { length < vec_len self.old.text }
        requires feed { get_or self.old.text.items length 0 ≡ 10 }
        ensures passes { OnOk result
            (PassesPiece self.old self.new (take length self.old.text.items)) }
        ensures fault { IfErr result (λ e. e ≡ NoMemory) }
    {
        let Some(start) = self.start.checked_add(length + 1) else {
            return Err(SplitFault::NoMemory);
        };
        let rest = Vec::from_slice(alloc, &self.text[length + 1..])?;
        self.text.clear();
        self.text.extend_from_slice(&rest)?;
        self.start = start;
        self.wanted = self.least;
        Ok(())
    }

    /// Asks for twice as much text, if no piece of it can be read. What is longer than a text
    /// may be is too long.
    pub fn ask_for_more(&mut self) -> Result<(), SplitFault>
        ensures stays { StaysAs self.old self.new }
        ensures too_long { IfErr result (λ e. e ≡ Malformed (too_long_at self.old.start)) }
        ensures long { IfErr result (λ _. max_length < length self.old.text.items) }
    {
        let length = self.text.len();
        if length > MAX_LENGTH {
            return Err(SplitFault::Malformed(TextFault::Text(EdnFault {
                kind: FaultKind::TooLong,
                place: self.start,
            })));
        }
        self.wanted = (2 * length).min(MAX_LENGTH + 1);
        Ok(())
    }
}
