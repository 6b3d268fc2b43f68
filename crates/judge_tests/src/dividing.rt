//! Tests how a history is divided into shards: their texts and tables, and which faults are found.

ghost use Rattle.std.specs.Prelude.{◌≡◌, None, false, IfOk};

use crate::from_sources::in_pieces;
use edn::{EdnFault, Failed, FaultKind};
use history::{HistoryFault, HistoryFaultKind, TextFault};
use shards::{Folder, SplitFault, object_named, split_by_pieces, split_over};
use std::alloc::{AllocError, Global};
use std::test::Fail;

/// Keeps in memory what it is given, and fails after this many calls.
#[derive(Drop)]
struct Memory {
    texts: Vec<Vec<u8>>,
    tables: Vec<Vec<u8>>,
    calls: usize,
    failed: bool,
}

fn empty_folder(alloc: Global, shards: u16, calls: usize) -> Result<Memory, AllocError>
    ensures { IfOk result (λ folder. folder.failed ≡ false) }
{
    let mut texts = Vec::new(alloc);
    let mut tables = Vec::new(alloc);
    for _ in 0..shards {
        texts.push(Vec::new(alloc))?;
        tables.push(Vec::new(alloc))?;
    }
    Ok(Memory {
        texts,
        tables,
        calls,
        failed: false,
    })
}

/// Adds lines to those of one shard.
fn extend(lines: &mut Vec<Vec<u8>>, shard: usize, more: &[u8]) -> Option<()> {
    lines.get_mut(shard)?.extend_from_slice(more).ok()
}

impl Memory {
    fn keep(&mut self, shard: usize, maps: &[u8], places: &[u8]) -> Option<()> {
        self.calls = self.calls.checked_sub(1)?;
        extend(&mut self.texts, shard, maps)?;
        extend(&mut self.tables, shard, places)
    }
}

impl Folder for Memory {
    ghost files = { λ _. None };

    ghost broken = { λ f. f.failed };

    fn add(&mut self, shard: u16, maps: &[u8], places: &[u8]) -> Result<(), Failed> {
        self.failed = self.keep(usize::from(shard), maps, places).is_none();
        if self.failed { Err(Failed) } else { Ok(()) }
    }
}

/// A map of process 0 is on two lines, and a map that is ignored has a string that looks as if a
/// map began in it.
const WHOLE: &[u8] = b"{:process 0, :type :invoke, :f :enqueue, :value 1, :object 0}
{:process 1, :type :invoke, :f :write, :value 5, :object 1}, {:process :nemesis, :value \"a
{b\"}
{:process 0,
 :type :ok, :f :enqueue, :value 1, :object 0}
; a comment
{:process 1, :type :info, :f :write, :value 5, :object 1}
{:process 2, :type :invoke, :f :acquire, :object 5}
";

/// Two objects are past the greatest that one text names, and one of them has the name 3 in its
/// shard.
const WIDE: &[u8] = b"{:process 0, :type :invoke, :f :dequeue, :object 3}
{:object +65539 :process 1 :type :invoke :f :pop, :x {:object 9}}
{:process 2, :type :invoke, :f :read, :object 70000}
";

/// What the first shards have of a whole if there are this many: numbers of maps, texts and
/// tables.
const PARTS: [(&[u8], u16, [u32; 2], [&[u8]; 2], [&[u8]; 2]); 4] = [
    (
        WIDE,
        2,
        [1, 2],
        [
            b"{:object 3 :process 1 :type :invoke :f :pop, :x {:object 9}}
",
            b"{:process 0, :type :invoke, :f :dequeue, :object 3}
{:process 2, :type :invoke, :f :read, :object 4464}
",
        ],
        [b"1\n", b"0\n2\n"],
    ),
    (
        WHOLE,
        1,
        [5, 0],
        [
            b"{:process 0, :type :invoke, :f :enqueue, :value 1, :object 0}
{:process 1, :type :invoke, :f :write, :value 5, :object 1}
{:process 0,
 :type :ok, :f :enqueue, :value 1, :object 0}
{:process 1, :type :info, :f :write, :value 5, :object 1}
{:process 2, :type :invoke, :f :acquire, :object 5}
",
            b"",
        ],
        [b"0\n1\n3\n4\n5\n", b""],
    ),
    (
        WHOLE,
        2,
        [2, 3],
        [
            b"{:process 0, :type :invoke, :f :enqueue, :value 1, :object 0}
{:process 0,
 :type :ok, :f :enqueue, :value 1, :object 0}
",
            b"{:process 1, :type :invoke, :f :write, :value 5, :object 1}
{:process 1, :type :info, :f :write, :value 5, :object 1}
{:process 2, :type :invoke, :f :acquire, :object 5}
",
        ],
        [b"0\n3\n", b"1\n4\n5\n"],
    ),
    (
        WHOLE,
        9,
        [2, 2],
        [
            b"{:process 0, :type :invoke, :f :enqueue, :value 1, :object 0}
{:process 0,
 :type :ok, :f :enqueue, :value 1, :object 0}
",
            b"{:process 1, :type :invoke, :f :write, :value 5, :object 1}
{:process 1, :type :info, :f :write, :value 5, :object 1}
",
        ],
        [b"0\n3\n", b"1\n4\n"],
    ),
];

/// Whether a shard has these lines. One that is not there has none.
fn has(lines: &[Vec<u8>], shard: usize, expected: &[u8]) -> bool {
    match lines.get(shard) {
        Some(lines) => lines.as_slice() == expected,
        None => expected.is_empty(),
    }
}

/// However the text comes, and however short its pieces are, the shards are the same.
#[test]
fn each_map_is_in_the_shard_of_its_object(rt: HostRuntime) -> Result<(), Fail> {
    for (whole, shards, counts, texts, tables) in PARTS {
        for (size, length) in [(1, 1), (7, 1), (7, 100), (100, 0), (9, 9999)] {
            let alloc = rt.alloc();
            let mut folder = empty_folder(alloc, shards, 9999)?;
            let mut history = in_pieces(whole, size, false);
            let Ok(given) = split_by_pieces(alloc, &mut history, &mut folder, shards, length) else {
                return Err(Fail::new("a whole is not divided"));
            };
            assert!(rt; given.large.is_empty());
            assert!(rt; given.counts.len() == usize::from(shards));
            for shard in 0..2 {
                assert!(rt; given.counts.get(shard).copied().unwrap_or(0) == counts[shard]);
                assert!(rt; has(&folder.texts, shard, texts[shard]));
                assert!(rt; has(&folder.tables, shard, tables[shard]));
            }
        }
    }
    Ok(())
}

#[test]
fn objects_are_found_by_their_names(rt: HostRuntime) -> Result<(), Fail> {
    assert!(rt; object_named(2, 1, 3) == 3 && object_named(2, 0, 3) == 65_539);
    assert!(rt; object_named(2, 1, 4464) == 70_000);
    Ok(())
}

/// Why a text is not divided among three shards.
fn fault_of(alloc: Global, text: &'static [u8], calls: usize, fails: bool) -> Option<SplitFault> {
    let mut folder = empty_folder(alloc, 3, calls).ok()?;
    let mut history = in_pieces(text, 11, fails);
    split_by_pieces(alloc, &mut history, &mut folder, 3, 20).err()
}

/// Histories with one fault each, its kind, and the number of its map. Those from H5 on cannot be
/// found in a shard.
const MAP_FAULTS: [(&[u8], HistoryFaultKind, usize); 8] = [
    (
        b"{:process :nemesis}\n[7]\n",
        HistoryFaultKind::NotAnOperation,
        1,
    ),
    (
        b"{:process 0, :type :invoke, :f :peek, :value 1}",
        HistoryFaultKind::UnknownF,
        0,
    ),
    (
        b"{:process 0, :type :invoke, :f :enqueue}",
        HistoryFaultKind::BadValue,
        0,
    ),
    (
        b"{:process 0, :type :invoke, :f :enqueue, :value 1, :object 4}
{:process 1, :type :invoke, :f :push, :value 2, :object 4}",
        HistoryFaultKind::MixedKinds,
        1,
    ),
    (
        b"{:process 0, :type :invoke, :f :enqueue, :value 1, :object 0}
{:process 0, :type :invoke, :f :enqueue, :value 2, :object 1}
{:process 9}",
        HistoryFaultKind::Busy,
        1,
    ),
    (
        b"{:process 0, :type :invoke, :f :enqueue, :value 1, :object 0}
{:process 0, :type :ok, :f :enqueue, :value 1, :object 0}
{:process 0, :type :ok, :f :enqueue, :value 1, :object 1}",
        HistoryFaultKind::Stray,
        2,
    ),
    (
        b"{:process 0, :type :invoke, :f :enqueue, :value 1, :object 0}
{:process 0, :type :ok, :f :enqueue, :value 1, :object 1}",
        HistoryFaultKind::Mismatch,
        1,
    ),
    (
        b"{:process 0, :type :invoke, :f :enqueue, :value 1, :object 0}
{:process 0, :type :info, :f :enqueue, :value 1, :object 0}
{:process 0, :type :invoke, :f :enqueue, :value 2, :object 1}",
        HistoryFaultKind::AfterInfo,
        2,
    ),
];

#[test]
fn faults_of_maps_are_those_of_the_whole(rt: HostRuntime) -> Result<(), Fail> {
    for (text, kind, map) in MAP_FAULTS {
        let fault = SplitFault::Malformed(TextFault::Maps(HistoryFault { kind, map }));
        assert!(rt; fault_of(rt.alloc(), text, 9999, false) == Some(fault));
    }
    Ok(())
}

/// Texts with one fault each, its kind, and its byte in the whole.
const TEXT_FAULTS: [(&[u8], FaultKind, usize); 6] = [
    (
        b"{:process :nemesis}\n{:process :nemesis}\n{:process \xff}",
        FaultKind::BadUtf8,
        50,
    ),
    (
        b"{:process :nemesis}\n{:process :nemesis}\n{:process \"}\n\n",
        FaultKind::Unfinished,
        54,
    ),
    (
        b"{:process :nemesis}\n{:process :nemesis}\n{:process 07}\n{}",
        FaultKind::BadToken,
        50,
    ),
    (
        b"{:process :nemesis}\n{:a\n1\n:a\n2}\n",
        FaultKind::DuplicateKey,
        26,
    ),
    (b"{:process :nemesis}\n}\n", FaultKind::BadToken, 20),
    (b"{", FaultKind::Unfinished, 1),
];

#[test]
fn places_of_text_faults_are_those_in_the_whole(rt: HostRuntime) -> Result<(), Fail> {
    for (text, kind, place) in TEXT_FAULTS {
        let fault = SplitFault::Malformed(TextFault::Text(EdnFault { kind, place }));
        assert!(rt; fault_of(rt.alloc(), text, 9999, false) == Some(fault));
    }
    Ok(())
}

#[test]
fn a_source_or_a_folder_that_fails_is_told(rt: HostRuntime) -> Result<(), Fail> {
    assert!(rt; fault_of(rt.alloc(), WHOLE, 9999, true) == Some(SplitFault::Read));
    // Each shard is given something at the end, if only nothing.
    for calls in [0, 1, 2] {
        assert!(rt; fault_of(rt.alloc(), b"", calls, false) == Some(SplitFault::Write));
    }
    assert!(rt; fault_of(rt.alloc(), b"", 3, false) == None);
    Ok(())
}

#[test]
fn an_object_that_needs_more_shards_is_told(rt: HostRuntime) -> Result<(), Fail> {
    let fits = b"{:process 0, :type :invoke, :f :read, :object 196607}";
    assert!(rt; fault_of(rt.alloc(), fits, 9999, false) == None);
    let unfit = b"{:process 0, :type :invoke, :f :read, :object 196608}";
    let fault = Some(SplitFault::TooFewShards(196_608));
    assert!(rt; fault_of(rt.alloc(), unfit, 9999, false) == fault);
    Ok(())
}

#[test]
fn a_text_without_maps_has_shards_without_maps(rt: HostRuntime) -> Result<(), Fail> {
    for text in [b"".as_slice(), b"\n\n ; nothing".as_slice()] {
        let mut folder = empty_folder(rt.alloc(), 2, 9999)?;
        let mut history = in_pieces(text, 4, false);
        let Ok(given) = split_over(rt.alloc(), &mut history, &mut folder, 2) else {
            return Err(Fail::new("a text without maps is not divided"));
        };
        assert!(rt; given.counts.as_slice() == [0, 0].as_slice());
        assert!(rt; has(&folder.texts, 0, b"") && has(&folder.tables, 1, b""));
    }
    Ok(())
}
