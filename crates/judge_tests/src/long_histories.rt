//! Tests how a piece of a long history is divided into its maps.

use history::{Action, Event, HistoryFault, HistoryFaultKind, LongReader, MapText, maps_of};
use seq_objects::{AnyOp, AnyReply};
use std::alloc::Global;
use std::test::Fail;

const PIECE: &[u8] = b"{:process 3, :type :invoke, :f :enqueue, :value 7, :object 4294967295}
{:process :nemesis, :type :info} ; a partition
{:process 3, :type :ok, :f :enqueue, :value 7, :object 4294967295}
";

fn maps(alloc: Global, piece: &[u8]) -> Result<Vec<MapText>, Fail> {
    maps_of(alloc, piece).map_err(|_| Fail::new("a piece is refused"))
}

#[test]
fn each_map_of_a_piece_has_its_own_bytes(rt: HostRuntime) -> Result<(), Fail> {
    let maps = maps(rt.alloc(), PIECE)?;
    assert!(rt; maps.len() == 3);
    let first = b"{:process 3, :type :invoke, :f :enqueue, :value 7, :object 4294967295}";
    assert!(rt; maps[0].text == first.as_slice());
    assert!(rt; maps[1].text == b"\n{:process :nemesis, :type :info}".as_slice());
    Ok(())
}

#[test]
fn maps_are_taken_one_by_one(rt: HostRuntime) -> Result<(), Fail> {
    let maps = maps(rt.alloc(), PIECE)?;
    assert!(rt; maps.len() == 3);
    let mut reader = LongReader::new(rt.alloc());
    let invoked = Event {
        number: 0,
        process: 3,
        object: u32::MAX,
        action: Action::Invoke(AnyOp::Enqueue(7)),
    };
    assert!(rt; reader.take(maps[0].said) == Ok(Some(invoked)));
    assert!(rt; reader.take(maps[1].said) == Ok(None));
    // The process is busy, and stays so.
    let (kind, map) = (HistoryFaultKind::Busy, 2);
    assert!(rt; reader.take(maps[0].said) == Err(HistoryFault { kind, map }));
    let returned = Event {
        number: 2,
        action: Action::Ok(AnyReply::Value(Some(7))),
        ..invoked
    };
    assert!(rt; reader.take(maps[2].said) == Ok(Some(returned)));
    Ok(())
}
