//! A call on an object: done there, and logged.

ghost use Rattle.std.specs.Prelude.{◌≡◌, ◌<◌, ◌++◌, map, IsSome, vec_len, vec_capacity};
ghost use Rattle.model.specs.Objects.{kind_with, next};
ghost use Rattle.desk_model.specs.World.{logged, Serves};
ghost use Rattle.desk_model.specs.Images.{request_in, answer_in, entry_in};

use desk_model::{Answer, LogEntry, Request};
use seq_objects::SeqObject;

/// Does the operation of a request, which the object can do, and logs it for the client of this
/// row. `Refused` if an allocation failed: then nothing is done, and nothing is logged. An entry
/// for which there is room takes no memory.
// Inlined, so that the answer stays in registers. Returned through memory, it is stored in two
// pieces and loaded as one word, and that load waits for both stores.
#[inline(always)]
pub fn serve<S: SeqObject>(
    object: &mut S,
    log: &mut Vec<LogEntry<S::Op, S::Reply>>,
    row: u32,
    request: &Request<S::Op>,
) -> Answer<S::Reply>
    requires { IsSome (next (S.content object.old) (S.op_in request.now.op)) }
    ensures log { map (entry_in S.op_in S.reply_in) log.new.items
        ≡ map (entry_in S.op_in S.reply_in) log.old.items
        ++ logged row (request_in S.op_in request.now) (answer_in S.reply_in result) }
    ensures kind { kind_with (S.content object.new) ≡ kind_with (S.content object.old) }
    ensures content { Serves (S.content object.old) (S.op_in request.now.op)
        (answer_in S.reply_in result) (S.content object.new) }
    ensures room { vec_len log.old < vec_capacity log.old →
        vec_capacity log.new ≡ vec_capacity log.old }
{
    if log.len() == log.capacity() && log.reserve(1).is_err() {
        return Answer::Refused;
    }
    match object.apply(&request.op) {
        Ok(reply) => {
            log.push_reserved(LogEntry {
                client: row,
                ticket: request.ticket,
                op: request.op,
                reply,
            });
            Answer::Reply(reply)
        }
        Err(_) => Answer::Refused,
    }
}
