//! `perform`, which does a command of the bench on texts in memory.

use bench_commands::{Line, RunOptions, perform};
use command_line::{CheckLine, SearchLine};
use edn::Out;
use order_search::TryFirst;
use seq_objects::{Kind, Kinds};
use std::alloc::Global;
use std::sync::Wait;
use std::test::Fail;
use std::thread::Threads;

const HISTORY: &[u8] = b"{:process 0, :type :invoke, :f :enqueue, :value 1}
{:process 0, :type :ok, :f :enqueue, :value 1}
{:process 0, :type :invoke, :f :dequeue}
{:process 0, :type :ok, :f :dequeue, :value 1}
";

const ORDER: &[u8] = b"{:object 0, :order [0 2]}\n";

const YES: &[u8] = b"yes: 2 operations, 1 objects\nqueue: 1 objects, 2 operations\n";

/// The status and the lines of a command on these texts.
fn performed<R: AllocGlobal + Threads + Wait + Sync>(
    rt: &R,
    line: &Line,
    first: &[u8],
    second: &[u8],
) -> Result<(u8, Vec<u8>), Fail> {
    let mut lines = Out::new(Vec::new(rt.alloc()));
    let status = perform(rt, rt.alloc(), line, first, second, &mut lines);
    Ok((status, lines.into_inner()))
}

fn check_by(alloc: Global, workers: u32) -> Result<Line, Fail> {
    Ok(Line::Check(CheckLine {
        history: String::from_str(alloc, "h.edn")?,
        certificates: String::from_str(alloc, "c.edn")?,
        workers,
    }))
}

#[test]
fn a_check_answers_yes_or_the_first_fault(rt: HostRuntime) -> Result<(), Fail> {
    for workers in [1, 4] {
        let line = check_by(rt.alloc(), workers)?;
        let (status, lines) = performed(&rt, &line, HISTORY, ORDER)?;
        assert!(rt; status == 0 && lines.as_slice() == YES);
        let (status, lines) = performed(&rt, &line, HISTORY, b"{:object 0, :order [0]}")?;
        assert!(rt;
            status == 1 && lines.as_slice() == b"no: C7 object 0: 2 is left out\n".as_slice()
        );
    }
    Ok(())
}

#[test]
fn a_search_prints_a_certificate(rt: HostRuntime) -> Result<(), Fail> {
    let line = Line::Search(SearchLine {
        history: String::from_str(rt.alloc(), "h.edn")?,
        steps: 1_000,
        try_first: TryFirst::LeastNumber,
    });
    let (status, lines) = performed(&rt, &line, HISTORY, b"")?;
    assert!(rt; status == 0 && lines.as_slice() == ORDER);
    Ok(())
}

#[test]
fn a_run_of_two_clients_prints_eleven_lines(rt: HostRuntime) -> Result<(), Fail> {
    let line = Line::Run(RunOptions {
        kinds: Kinds::One(Kind::Queue),
        objects: 1,
        clients: 2,
        calls: 2,
        seed: 0,
    });
    for _ in 0..100 {
        let (status, lines) = performed(&rt, &line, b"", b"")?;
        assert!(rt; status == 0);
        assert!(rt; lines.iter().filter(|byte| **byte == b'\n').count() == 11);
    }
    Ok(())
}

#[test]
fn a_schedule_whose_client_has_not_ended_is_malformed(rt: HostRuntime) -> Result<(), Fail> {
    let line = Line::Simulate {
        schedule: String::from_str(rt.alloc(), "s.edn")?,
    };
    let header = b"{:kind :queue, :objects 1, :clients 1, :quota 1}";
    let (status, lines) = performed(&rt, &line, header, b"")?;
    assert!(rt; status == 2 && lines.as_slice() == b"client 0 has not ended\n".as_slice());
    Ok(())
}
