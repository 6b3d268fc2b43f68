//! What is found of shards, merged: the lines are those of the whole.

use history_commands::{Merging, Output, ShardNumber, Status, verify};
use std::alloc::{AllocError, Global};
use std::test::Fail;

/// A register, a queue that takes out what was put in, and one that takes out what never was.
const WHOLE: &[u8] = b"
    {:process 0 :type :invoke :f :enqueue :value 5 :object 1}
    {:process 1 :type :invoke :f :write :value 7 :object 0}
    {:process 0 :type :ok :f :enqueue :value 5 :object 1}
    {:process 0 :type :invoke :f :dequeue :object 1}
    {:process 1 :type :ok :f :write :value 7 :object 0}
    {:process 0 :type :ok :f :dequeue :value 5 :object 1}
    {:process 2 :type :invoke :f :dequeue :object 2}
    {:process 2 :type :ok :f :dequeue :value 9 :object 2}";

const REGISTER: ShardFiles = ShardFiles {
    number: 0,
    maps: 2,
    text: b"
        {:process 1 :type :invoke :f :write :value 7 :object 0}
        {:process 1 :type :ok :f :write :value 7 :object 0}",
    table: b"1\n4\n",
    evidence: b"{:object 0, :order [1]}",
};

const QUEUE: ShardFiles = ShardFiles {
    number: 1,
    maps: 4,
    text: b"
        {:process 0 :type :invoke :f :enqueue :value 5 :object 1}
        {:process 0 :type :ok :f :enqueue :value 5 :object 1}
        {:process 0 :type :invoke :f :dequeue :object 1}
        {:process 0 :type :ok :f :dequeue :value 5 :object 1}",
    table: b"0\n2\n3\n5\n",
    evidence: b"{:object 1, :search {:first :return, :steps 9}}",
};

const IMPOSSIBLE: ShardFiles = ShardFiles {
    number: 2,
    maps: 2,
    text: b"
        {:process 2 :type :invoke :f :dequeue :object 2}
        {:process 2 :type :ok :f :dequeue :value 9 :object 2}",
    table: b"6\n7\n",
    evidence: b"{:object 2, :cuts [{:until 8}], :count {:value 9, :from 0}, :note \"9 is new\"}",
};

const NOTHING: ShardFiles = ShardFiles {
    number: 3,
    maps: 0,
    text: b"",
    table: b"",
    evidence: b"",
};

const YES: &str = "yes: 3 operations, 2 objects
queue: 1 objects, 2 operations
register: 1 objects, 1 operations
";

const NO: &str = "; object 2: impossible
; 9 is new
; events 6 and 7: process 2, :dequeue nil, :ok 9
; {:object 2, :cuts [{:until 8}], :count {:value 9, :from 0}}
";

/// Evidence on the register that shows nothing: none, an order in the numbers of the shard or of
/// another object, and one that leaves the write out.
const UNTRUE: [&[u8]; 5] = [
    b"",
    b"{:object 0, :order [0]}",
    b"{:object 1, :order [0 3]}",
    b"{:object 1, :order [3 0]}",
    b"{:object 0, :order []}",
];

/// Tables that the register does not fit: too short, too long, not rising, no decimals or lines as
/// a table has them, and past 32 bits.
const MISFITS: [&[u8]; 13] = [
    b"",
    b"1\n",
    b"1\n4",
    b"1\n4\n5\n",
    b"4\n1\n",
    b"1\n1\n",
    b"1\n04\n",
    b"1\n\n4\n",
    b"1 4\n",
    b"1\r\n4\r\n",
    b"1\n-4\n",
    b"1\n4294967296\n",
    b"1\n18446744073709551617\n",
];

/// How many shards there are.
const COUNT: u16 = 64;

/// What a merge is given of a shard.
#[derive(Clone, Copy)]
struct ShardFiles {
    number: u16,
    maps: u32,
    text: &'static [u8],
    table: &'static [u8],
    evidence: &'static [u8],
}

fn with_evidence(shard: ShardFiles, evidence: &'static [u8]) -> ShardFiles {
    ShardFiles { evidence, ..shard }
}

fn with_table(shard: ShardFiles, table: &'static [u8]) -> ShardFiles {
    ShardFiles { table, ..shard }
}

fn with_text(shard: ShardFiles, text: &'static [u8]) -> ShardFiles {
    ShardFiles { text, ..shard }
}

fn merge(alloc: Global, shards: &[ShardFiles]) -> Result<Output, AllocError> {
    let mut merging = Merging::new(alloc);
    for shard in shards {
        let number = ShardNumber {
            number: shard.number,
            count: COUNT,
            maps: shard.maps,
        };
        merging.take(
            alloc,
            number,
            shard.text,
            shard.table,
            shard.evidence,
            1_000,
        )?;
    }
    merging.output(alloc)
}

fn is_merged(
    alloc: Global,
    shards: &[ShardFiles],
    status: Status,
    lines: &str,
) -> Result<bool, AllocError> {
    let output = merge(alloc, shards)?;
    Ok(output.status == status && output.text.as_slice() == lines.as_bytes())
}

/// The kinds are in the order of their first invocations in the whole. A shard may be empty.
#[test]
fn a_yes_has_the_counts_of_the_whole(rt: HostRuntime) -> Result<(), Fail> {
    let alloc = rt.alloc();
    assert!(rt; is_merged(alloc, &[REGISTER, QUEUE], Status::Yes, YES)?);
    assert!(rt; is_merged(alloc, &[NOTHING, QUEUE, REGISTER], Status::Yes, YES)?);
    let register = "yes: 1 operations, 1 objects\nregister: 1 objects, 1 operations\n";
    assert!(rt; is_merged(alloc, &[REGISTER], Status::Yes, register)?);
    let nothing = "yes: 0 operations, 0 objects\n";
    assert!(rt; is_merged(alloc, &[NOTHING], Status::Yes, nothing)?);
    Ok(())
}

/// In the order of the objects, whichever shard comes first.
#[test]
fn a_no_has_the_lines_of_the_whole(rt: HostRuntime) -> Result<(), Fail> {
    let alloc = rt.alloc();
    assert!(rt; is_merged(alloc, &[REGISTER, QUEUE, IMPOSSIBLE], Status::No, NO)?);
    let open = with_evidence(REGISTER, b"");
    let merged = merge(alloc, &[IMPOSSIBLE, QUEUE, open])?;
    let evidence = b"
        {:object 2, :cuts [{:until 8}], :count {:value 9, :from 0}, :note \"9 is new\"}
        {:object 1, :order [0 3]}";
    let whole = verify(alloc, WHOLE, evidence, 1_000)?;
    assert!(rt; merged.status == Status::No && whole.status == Status::No);
    assert_eq!(rt; merged.text.as_slice(), whole.text.as_slice());
    let mut lines = Vec::from_slice(alloc, b"; object 0: open\n")?;
    lines.extend_from_slice(NO.as_bytes())?;
    assert_eq!(rt; merged.text.as_slice(), lines.as_slice());
    Ok(())
}

#[test]
fn without_true_evidence_nothing_is_decided(rt: HostRuntime) -> Result<(), Fail> {
    let alloc = rt.alloc();
    for evidence in UNTRUE.iter() {
        let shards = [with_evidence(REGISTER, evidence), QUEUE];
        assert!(rt; is_merged(alloc, &shards, Status::Undecided, "; object 0: open\n")?);
    }
    let garbage = [QUEUE, with_evidence(REGISTER, b"{:object 0}}")];
    let lines = "shard 0: malformed evidence: E3 at byte 11\n";
    assert!(rt; is_merged(alloc, &garbage, Status::Undecided, lines)?);
    let strange = [
        with_evidence(QUEUE, b""),
        with_evidence(REGISTER, b"{:order 7}"),
    ];
    let lines = "shard 0: malformed evidence: K1 at form 0\n; object 1: open\n";
    assert!(rt; is_merged(alloc, &strange, Status::Undecided, lines)?);
    Ok(())
}

#[test]
fn a_malformed_shard_comes_before_all(rt: HostRuntime) -> Result<(), Fail> {
    let alloc = rt.alloc();
    let stray = with_text(
        REGISTER,
        b"{:process 1 :type :ok :f :write :value 7 :object 0}",
    );
    let lines = "shard 0: malformed history: H6 at map 0\n";
    assert!(rt; is_merged(alloc, &[IMPOSSIBLE, stray], Status::Malformed, lines)?);
    let cut = with_text(QUEUE, b"{:process 0 :type :invoke");
    let lines =
        "shard 1: malformed history: E2 at byte 25\nshard 0: malformed history: H6 at map 0\n";
    assert!(rt; is_merged(alloc, &[cut, IMPOSSIBLE, stray], Status::Malformed, lines)?);
    Ok(())
}

#[test]
fn a_table_that_does_not_fit_is_refused(rt: HostRuntime) -> Result<(), Fail> {
    let alloc = rt.alloc();
    for table in MISFITS.iter() {
        let shards = [with_table(REGISTER, table), IMPOSSIBLE];
        let lines = "shard 0: its table does not fit\n";
        assert!(rt; is_merged(alloc, &shards, Status::Malformed, lines)?);
    }
    let greatest = [with_table(REGISTER, b"1\n4294967295\n"), QUEUE];
    assert!(rt; is_merged(alloc, &greatest, Status::Yes, YES)?);
    Ok(())
}

/// A shard that lost its last map, and the line of it in its table, has another number of maps than
/// it was given. So has one that has a map more.
#[test]
fn a_shard_with_another_number_of_maps_is_malformed(rt: HostRuntime) -> Result<(), Fail> {
    let alloc = rt.alloc();
    let cut = ShardFiles {
        text: b"{:process 1 :type :invoke :f :write :value 7 :object 0}",
        table: b"1\n",
        ..REGISTER
    };
    let lines = "shard 0: it has 1 maps, and not 2\n";
    assert!(rt; is_merged(alloc, &[cut, IMPOSSIBLE], Status::Malformed, lines)?);
    let empty = ShardFiles {
        maps: 4_294_967_295,
        ..NOTHING
    };
    let lines = "shard 3: it has 0 maps, and not 4294967295\n";
    assert!(rt; is_merged(alloc, &[QUEUE, empty], Status::Malformed, lines)?);
    let longer = ShardFiles { maps: 3, ..QUEUE };
    let lines = "shard 1: it has 4 maps, and not 3\n";
    assert!(rt; is_merged(alloc, &[longer, REGISTER], Status::Malformed, lines)?);
    Ok(())
}

/// A history has at most 1,000,000 maps. A map of a nemesis is one, and is otherwise ignored.
#[test]
fn a_shard_of_too_many_maps_is_undecided(rt: HostRuntime) -> Result<(), Fail> {
    let alloc = rt.alloc();
    let mut text = Vec::new(alloc);
    for _ in 0..1_000_001 {
        text.extend_from_slice(b"{:process :n}\n")?;
    }
    let mut merging = Merging::new(alloc);
    let number = ShardNumber {
        number: 7,
        count: COUNT,
        maps: 0,
    };
    merging.take(alloc, number, &text, b"", b"", 0)?;
    let output = merging.output(alloc)?;
    assert!(rt; output.status == Status::Undecided);
    assert_eq!(rt; output.text.as_slice(), b"shard 7: too large\n".as_slice());
    Ok(())
}
