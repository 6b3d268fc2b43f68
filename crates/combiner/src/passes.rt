//! One pass over the rows.

ghost use Rattle.std.specs.Prelude.{◌≡◌, ◌<◌, ◌≤◌, length, IfSome, ◌+◌};
ghost use Rattle.desk_invariant.specs.Views.{after_miss};
ghost use Rattle.combiner.specs.Passes.{Goes, KeepsCalls, IsTried, IsSettled, IsSettledNow};
ghost use Rattle.combiner.specs.Passes.{IsSameBut, HasLearnt, IfServed, IfBusy, IfNoMemory};
ghost use Rattle.desk_model.specs.Limits.{max_clients};

use publication::{Client, Desk, Pass, Picked, Win};
use seq_objects::SeqObject;

/// What a try to combine did.
#[derive(Clone, Copy, Debug, PartialEq, Eq)]
pub enum Combined {
    /// The pass of this number answered this many requests, refused ones too.
    Served { pass: u64, count: u64 },
    /// The object was held.
    Busy,
    /// An allocation for the log failed, and nothing was served.
    NoMemory,
}

/// What the try of a row did.
#[derive(Clone, Copy, PartialEq, Eq)]
enum Tried {
    /// There was no request for the object.
    Nothing,
    Answered,
    /// The object cannot do the operation now.
    PutBack,
}

/// A pass whose number is a multiple of this cleans up.
const CLEANING: u64 = 64;

/// A row without a request for more passes than this is taken out of the list.
const IDLE: u64 = 128;

/// The most clients of a desk, and so the most rows of a list.
const MAX_CLIENTS: usize = 32;

/// Tries to win the object. If it is won, and the log has room for a call of each client, serves
/// the client's own row, then each other row of the publication list, and then its own again if
/// its request was put back. A request whose operation is not possible is put back. In each pass
/// whose number is a multiple of 64 it takes rows out of the list that had no request in the last
/// 128 passes, but never the first. The clauses cover the client and its own row. Tests cover which
/// other rows are served or taken out, and the numbers in `Served`.
pub fn combine<S: SeqObject>(
    desk: &Desk<S>,
    client: Client<S>,
    object: u32,
) -> (Client<S>, Combined)
    requires desk { client.desk ≡ desk.now.id }
    requires object { object < length desk.now.id.kinds }
    ensures desk { result.0.desk ≡ client.desk }
    // It does not enlist.
    ensures places { result.0.places ≡ client.places }
    ensures same { KeepsCalls client.knows result.0.knows }
    // A call of its own on the object that is outstanding is answered, so that the next poll is
    // Some; or the object cannot do it after the log that the client has then seen.
    ensures served { IfServed result.1 (IsSettled object result.0.knows) }
    ensures busy { IfBusy result.1 (result.0.knows ≡ after_miss object client.knows) }
    // Nothing was served: the client has seen the log, and knows nothing else.
    ensures memory { IfNoMemory result.1 (HasLearnt object client.knows result.0.knows) }
{
    match desk.win(client, object) {
        Win::Held(client) => (client, Combined::Busy),
        Win::Won(mut held) => {
            let pass = held.count_pass();
            if held.reserve(desk.clients() as usize).is_err() {
                return (held.release(desk), Combined::NoMemory);
            }
            let (mut held, count) = serve(desk, held);
            clean(&mut held, pass);
            (held.release(desk), Combined::Served { pass, count })
        }
    }
}

/// Serves its own row, the others, and its own again if its request was put back. Returns how many
/// requests were answered.
fn serve<S: SeqObject>(desk: &Desk<S>, pass: Pass<S>) -> (Pass<S>, u64)
    requires { pass.desk ≡ desk.now.id }
    ensures goes { Goes pass result.0 }
    ensures own { IsSettledNow result.0 }
{
    let own = pass.number();
    let (mut pass, first) = try_row(desk, pass, own);
    walk(&mut pass);
    let (pass, others) = serve_others(desk, pass, own);
    if first != Tried::PutBack {
        return (pass, u64::from(first == Tried::Answered) + others);
    }
    let (pass, again) = try_row(desk, pass, own);
    (pass, u64::from(again == Tried::Answered) + others)
}

/// Walks the list, and makes the rows that were enlisted since the last walk as old as this pass.
fn walk<S: SeqObject>(pass: &mut Pass<S>)
    ensures { IsSameBut pass.old pass.new }
{
    let left = pass.rows().len();
    pass.walk();
    let newcomers = pass.rows().len().saturating_sub(left);
    for at in 0..newcomers {
        make_current(pass, at);
    }
}

/// The row at this place of the list, if there is one.
fn row_at<S: SeqObject>(pass: &Pass<S>, at: usize) -> Option<u32>
    ensures { IfSome result (λ row. row < max_clients) }
{
    let rows = pass.rows();
    if at < rows.len() {
        Some(rows[at])
    } else {
        None
    }
}

/// Makes the row at this place as old as this pass.
fn make_current<S: SeqObject>(pass: &mut Pass<S>, at: usize)
    ensures { IsSameBut pass.old pass.new }
{
    let Some(row) = row_at(pass, at) else {
        return;
    };
    pass.set_age(row);
}

/// If it is this pass's turn, takes out the rows that had no request for long, but not the
/// first.
#[inline(always)]
fn clean<S: SeqObject>(pass: &mut Pass<S>, number: u64)
    ensures { IsSameBut pass.old pass.new }
{
    if number % CLEANING != 0 {
        return;
    }
    let mut at = pass.rows().len();
    while at > 1 {
        at -= 1;
        clean_at(pass, at, number);
    }
}

/// Takes out the row at this place, if it had no request for long.
#[inline(always)]
fn clean_at<S: SeqObject>(pass: &mut Pass<S>, at: usize, number: u64)
    requires { (1 ≤ at) × (at < length pass.old.state.list.rows) }
    ensures same { IsSameBut pass.old pass.new }
    ensures rows { at ≤ length pass.new.state.list.rows }
{
    let Some(row) = row_at(pass, at) else {
        return;
    };
    if number.saturating_sub(pass.age(row)) <= IDLE {
        return;
    }
    pass.unlink(at);
}

/// Serves each listed row but its own, in the order of the list.
fn serve_others<S: SeqObject>(desk: &Desk<S>, pass: Pass<S>, own: u32) -> (Pass<S>, u64)
    requires { pass.desk ≡ desk.now.id }
    ensures goes { Goes pass result.0 }
    ensures few { result.1 < 1 + max_clients }
{
    let mut pass = pass;
    let mut count = 0;
    for at in 0..MAX_CLIENTS {
        let Some(row) = row_at(&pass, at) else {
            break;
        };
        if row != own {
            let (after, tried) = try_row(desk, pass, row);
            pass = after;
            if tried == Tried::Answered {
                count += 1;
            }
        }
    }
    (pass, count)
}

/// Tries a row once. A request that is there is answered, and the row is as old as this pass; or it
/// is put back.
fn try_row<S: SeqObject>(desk: &Desk<S>, pass: Pass<S>, row: u32) -> (Pass<S>, Tried)
    requires desk { pass.desk ≡ desk.now.id }
    requires row { row < max_clients }
    ensures goes { Goes pass result.0 }
    ensures own { row ≡ pass.knows.number → IsTried result.0 result.1 }
{
    match pass.pick(desk, row) {
        Picked::Not(pass) => (pass, Tried::Nothing),
        Picked::Got(hand) => {
            if hand.possible() {
                let (mut pass, _) = hand.answer(desk);
                pass.set_age(row);
                (pass, Tried::Answered)
            } else {
                (hand.put_back(desk), Tried::PutBack)
            }
        }
    }
}
