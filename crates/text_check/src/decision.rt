//! The judge on two texts in memory.

ghost use Rattle.std.specs.Prelude.{ℕ, List, IfOk};
ghost use Rattle.certificate.specs.Denotes.{AreDistinct};
ghost use Rattle.checker.specs.Refusals.{IsCheckAnswer};
ghost use Rattle.reading.specs.Texts.{IsLinearizableText, IsHistoryRead};
ghost use Rattle.text_check.specs.Verdicts.{AreBothRead, IsJudgement, OnYes};

use crate::laws::valid_certificates_suffice;
use certificate::Certificate;
use checker::{Refusal, check_all};
use history::History;
use parallel::check_parallel;
use reading::{
    MAX_WORKERS, TextFailure, certificates_of_text, history_of_text, history_of_text_by_workers,
};
use report::{Verdict, verdict_on_check};
use seq_objects::Open;
use std::alloc::Global;
use std::thread::Threads;

/// Checks the certificates of a history by `workers` threads, at most 16. With 0 or 1 it starts no
/// thread.
fn check<R: Threads + Sync>(
    rt: &R,
    alloc: Global,
    history: &History,
    certificates: &[Certificate],
    workers: u32,
) -> Result<(), Refusal>
    // no object has two certificates
    requires { AreDistinct certificates.now }
    ensures { IsCheckAnswer history.now certificates.now result }
{
    if workers < 2 {
        return check_all(alloc, history, certificates);
    }
    let workers = workers.min(MAX_WORKERS);
    check_parallel(rt, alloc, history, certificates, workers, &Open)
}

/// Returns what both texts denote, or why reading stopped. Reads the certificates only if the first
/// text denotes a history.
fn with_certificates(
    alloc: Global,
    history: Result<History, TextFailure>,
    certificates: &[u8],
) -> Result<(History, Vec<Certificate>), TextFailure>
    ensures read { (h : List ℕ) → IsHistoryRead h history
        → AreBothRead (λ v. v.items) h certificates.now result }
    ensures distinct { IfOk result (λ r. AreDistinct r.1.items) }
{
    let history = history?;
    let orders = certificates_of_text(alloc, certificates)?;
    Ok((history, orders))
}

/// Judges a history that was read from a text, as `judge` does.
pub(crate) fn check_read<R: Threads + Sync>(
    rt: &R,
    alloc: Global,
    history: Result<History, TextFailure>,
    certificates: &[u8],
    workers: u32,
) -> Verdict
    ensures { (h : List ℕ) → IsHistoryRead h history → IsJudgement h certificates.now result }
{
    // This does nothing: it is locality.
    valid_certificates_suffice();
    match with_certificates(alloc, history, certificates) {
        Ok((client_events, orders)) => {
            let checked = check(rt, alloc, &client_events, &orders, workers);
            verdict_on_check(alloc, &client_events, checked)
        }
        Err(stop) => Verdict::from(stop),
    }
}

/// Checks a history against certificates, one order of operations for each object. Both are texts.
/// The work is shared by `workers` threads, at most 16: each reads a piece of a long history whose
/// maps are in lines of their own, and checks some of the objects. With 0 or 1 it starts no thread.
///
/// Where it answers Yes, the history that the text denotes is linearizable: some completion of
/// it is, process by process, equal to one sequential history over all objects that is legal for
/// every object and keeps every return before a later invocation; it answers No only with the first
/// fault that truly is in the certificates.
///
/// The history's text comes first, then what its maps say, then the certificates' text, its forms,
/// and the check; the first fault is the answer. `NoMemory`: an allocation failed, and no fault was
/// found before. Linearizability is that of Herlihy and Wing, TOPLAS 1990, section 2.
pub fn judge<R: Threads + Sync>(
    rt: &R,
    alloc: Global,
    history: &[u8],
    certificates: &[u8],
    workers: u32,
) -> Verdict
    ensures linearizable { OnYes result (IsLinearizableText history.now) }
    ensures holds { IsJudgement history.now certificates.now result }
{
    let read = history_of_text_by_workers(rt, alloc, history, workers);
    check_read(rt, alloc, read, certificates, workers)
}

/// Judges two texts as `judge` does. It starts no thread.
pub fn check_alone(alloc: Global, history: &[u8], certificates: &[u8]) -> Verdict
    ensures linearizable { OnYes result (IsLinearizableText history.now) }
    ensures holds { IsJudgement history.now certificates.now result }
{
    // This does nothing: it is locality.
    valid_certificates_suffice();
    match with_certificates(alloc, history_of_text(alloc, history), certificates) {
        Ok((client_events, orders)) => {
            let checked = check_all(alloc, &client_events, &orders);
            verdict_on_check(alloc, &client_events, checked)
        }
        Err(stop) => Verdict::from(stop),
    }
}
