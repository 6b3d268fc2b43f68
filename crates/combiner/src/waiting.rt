//! A call that is posted and waits for its answer.

ghost use Rattle.std.specs.Prelude.{◌≡◌, ◌<◌, length, IfOk, IfErr};
ghost use Rattle.desk_model.specs.Images.{answer_in};
ghost use Rattle.combiner.specs.Passes.{KeepsCalls};
ghost use Rattle.combiner.specs.Waits.{IsCallOver, IsWaitOver, IsCallFault};

use crate::passes::{Combined, combine};
use crossbeam_utils::Backoff;
use publication::{Answer, Client, Desk, Post};
use seq_objects::SeqObject;
use std::alloc::AllocError;
use std::sync::Wait;

/// Why a call was not answered.
#[derive(Clone, Copy, Debug, PartialEq, Eq)]
pub enum CallFault {
    /// P1 to P4: it was not posted.
    Post(Post),
    /// An allocation failed in a pass of its own. The call is outstanding, and `wait_for` goes on
    /// with it.
    NoMemory,
}

/// Makes a call: posts it, and then polls, enlists the row and combines, with a yield between
/// tries, until it is answered.
pub fn call<S: SeqObject, R: Wait>(
    rt: &R,
    desk: &Desk<S>,
    client: Client<S>,
    object: u32,
    op: S::Op,
) -> (Client<S>, Result<Answer<S::Reply>, CallFault>)
    requires { client.desk ≡ desk.now.id }
    ensures desk { result.0.desk ≡ client.desk }
    // The call is over, and what `poll` answered is its answer.
    ensures answered { IfOk result.1
        (λ a. IsCallOver client.knows object (S.op_in op) (answer_in S.reply_in a) result.0.knows) }
    ensures fault { IfErr result.1 (λ e. IsCallFault desk.now client object (S.op_in op) e
        result.0) }
{
    let mut client = client;
    if let Err(fault) = desk.post(&mut client, object, op) {
        return (client, Err(CallFault::Post(fault)));
    }
    let (client, answered) = wait_for(rt, desk, client, object);
    match answered {
        Ok(answer) => (client, Ok(answer)),
        Err(_) => (client, Err(CallFault::NoMemory)),
    }
}

/// Polls, enlists the row and combines until the outstanding call is answered, or an allocation
/// fails in a pass of its own. There is a yield after each try, also after a pass that served the
/// call. The contract does not say at which object it combines.
pub fn wait_for<S: SeqObject, R: Wait>(
    rt: &R,
    desk: &Desk<S>,
    client: Client<S>,
    object: u32,
) -> (Client<S>, Result<Answer<S::Reply>, AllocError>)
    requires desk { client.desk ≡ desk.now.id }
    requires object { object < length desk.now.id.kinds }
    ensures desk { result.0.desk ≡ client.desk }
    ensures returns { IfOk result.1 (λ a. IsWaitOver client.knows (answer_in S.reply_in a)
        result.0.knows) }
    // The call stays outstanding.
    ensures stays { IfErr result.1 (λ _. KeepsCalls client.knows result.0.knows) }
{
    let mut client = client;
    let backoff = Backoff::new();
    for _ in rt.forever() {
        if let Some(answer) = desk.poll(&mut client) {
            return (client, Ok(answer));
        }
        desk.enlist(&mut client, object);
        let (after, combined) = combine(desk, client, object);
        client = after;
        match combined {
            Combined::NoMemory => return (client, Err(AllocError)),
            // The pass answered a request: this client's own, unless that was put back. So the next
            // yields are short.
            Combined::Served { count, .. } if count > 0 => backoff.reset(),
            _ => {}
        }
        backoff.snooze();
    }
    unreachable!()
}
