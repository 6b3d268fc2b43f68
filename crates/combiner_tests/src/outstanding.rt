//! A call that is outstanding, since a pass of its own gets no memory.

use crate::bench::{Bench, Setup};
use crate::steps::Step::{Calls, IsRefused, Waits, WaitsFor};
use crate::steps::{NIL, take_turns};
use publication::Post;
use seq_objects::{AnyOp, Kind};
use std::test::Fail;

/// The log has no room yet, so the pass of the first call must make some. `rt try --test
/// --fail-alloc N` refuses a test's Nth allocation: at the one of that room the test prints that
/// the call is outstanding, and `wait_for` goes on with it.
#[test]
fn a_call_whose_pass_gets_no_memory_is_outstanding(rt: HostRuntime) -> Result<(), Fail> {
    let setup = Setup {
        kinds: &[Kind::Mutex],
        left: None,
        clients: 1,
        quota: 1,
    };
    let mut bench = Bench::new(rt.alloc(), &setup)?;
    if !bench.step(&rt, &(0, Calls(AnyOp::Acquire, NIL))) {
        println!(rt; "the call is outstanding")?;
        let waits = [
            (0, Waits(true)),
            (0, IsRefused(0, AnyOp::Acquire, Post::Outstanding)),
            (0, WaitsFor(NIL)),
        ];
        bench = take_turns(&rt, bench, &waits, "outstanding");
    }
    let _ = take_turns(&rt, bench, &[(0, Waits(false))], "over");
    Ok(())
}
