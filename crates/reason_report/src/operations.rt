//! The lines of the operations of a part.

ghost use Rattle.std.specs.Prelude.{◌≡◌, ◌++◌, codes, OnOk};
ghost use Rattle.events.specs.Events.{IsProper};
ghost use Rattle.reason_report.specs.Operations as spec;
ghost use Rattle.reason_report.specs.Operations.{operation_line, operations_text};
ghost use Rattle.reason_report.specs.Segments.{comment_text};

use crate::segments::{Segment, push_comment, push_segments};
use events::{Action, End, Event, History, ObjectHistory, Operation};
use seq_objects::{AnyOp, AnyReply, function_of, value_of_op, value_of_reply};
use std::alloc::AllocError;

/// The event with this number, if there is one.
fn event_at(events: &[Event], number: u32) -> Option<Event>
    requires { IsProper events.now }
    ensures { result ≡ spec.event_at events.now number }
{
    let Ok(place) = events.binary_search_by_key(&number, |event| event.number) else {
        return None;
    };
    Some(events[place])
}

fn process_in(event: Option<Event>) -> u64
    ensures { result ≡ spec.process_in event }
{
    match event {
        Some(event) => event.process,
        None => 0,
    }
}

/// The operation that the event invokes, or else the other one.
fn op_in(other: AnyOp, event: Option<Event>) -> AnyOp
    ensures { result ≡ spec.op_shown other event }
{
    match event {
        None => other,
        Some(event) => match event.action {
            Action::Invoke(op) => op,
            Action::Ok(_) | Action::Fail | Action::Info => other,
        },
    }
}

/// Returns the reply of the event, or otherwise the other one.
fn reply_in(other: AnyReply, event: Option<Event>) -> AnyReply
    ensures { result ≡ spec.reply_shown other event }
{
    match event {
        None => other,
        Some(event) => match event.action {
            Action::Ok(reply) => reply,
            Action::Invoke(_) | Action::Fail | Action::Info => other,
        },
    }
}

fn end_in(events: &[Event], end: End) -> End
    requires { IsProper events.now }
    ensures { result ≡ spec.end_shown events.now «end» }
{
    match end {
        End::Returned { at, reply } => End::Returned {
            at,
            reply: reply_in(reply, event_at(events, at)),
        },
        End::Pending => End::Pending,
        End::Failed => End::Failed,
    }
}

/// The operation with what the history has at its numbers.
fn operation_in(events: &[Event], operation: &Operation) -> Operation
    requires { IsProper events.now }
    ensures { result ≡ spec.operation_in events.now operation.now }
{
    Operation {
        number: operation.number,
        op: op_in(operation.op, event_at(events, operation.number)),
        end: end_in(events, operation.end),
    }
}

fn push_place(text: &mut Vec<u8>, operation: &Operation) -> Result<(), AllocError>
    ensures { OnOk result (text.new.items ≡ text.old.items
        ++ spec.place_text operation.now.number operation.now.«end») }
{
    let number = Segment::Natural(u64::from(operation.number));
    match operation.end {
        End::Returned { at, .. } => {
            let at = Segment::Natural(u64::from(at));
            push_segments(
                text,
                &[
                    Segment::Text(b"events "),
                    number,
                    Segment::Text(b" and "),
                    at,
                ],
            )
        }
        End::Pending | End::Failed => push_segments(text, &[Segment::Text(b"event "), number]),
    }
}

fn push_op(text: &mut Vec<u8>, op: &AnyOp) -> Result<(), AllocError>
    ensures { OnOk result (text.new.items ≡ text.old.items ++ spec.op_text op.now) }
{
    let name = Segment::Text(function_of(op).name().as_bytes());
    let argument = Segment::Value(value_of_op(op));
    push_segments(
        text,
        &[Segment::Text(b":"), name, Segment::Text(b" "), argument],
    )
}

fn push_reply(text: &mut Vec<u8>, end: End) -> Result<(), AllocError>
    ensures { OnOk result (text.new.items ≡ text.old.items ++ spec.reply_text «end») }
{
    match end {
        End::Returned { reply, .. } => {
            let reply = Segment::Value(value_of_reply(&reply));
            push_segments(text, &[Segment::Text(b", :ok "), reply])
        }
        End::Pending | End::Failed => Ok(()),
    }
}

fn push_call(text: &mut Vec<u8>, operation: &Operation) -> Result<(), AllocError>
    ensures { OnOk result (text.new.items ≡ text.old.items ++ spec.call_text operation.now) }
{
    push_op(text, &operation.op)?;
    push_reply(text, operation.end)
}

fn is_same(left: &Operation, right: &Operation) -> bool
    ensures { result ≡ spec.same_invocation left.now right.now }
{
    *left == *right
}

/// What the part counts the operation as, if that is not what the history says about it.
fn push_counted(
    text: &mut Vec<u8>,
    recorded: &Operation,
    counted: &Operation,
) -> Result<(), AllocError>
    ensures { OnOk result (text.new.items ≡ text.old.items
        ++ spec.counted_as_text recorded.now counted.now) }
{
    if is_same(recorded, counted) {
        return Ok(());
    }
    text.extend_from_slice(b", counted as ")?;
    push_call(text, counted)
}

/// The word on an operation that did not return in the part, and the end of the line.
fn push_end(text: &mut Vec<u8>, end: End) -> Result<(), AllocError>
    ensures { OnOk result (text.new.items ≡ text.old.items ++ (spec.open_text «end»
        ++ codes "\n")) }
{
    let said: &[u8] = match end {
        End::Returned { .. } => b"\n",
        End::Pending => b", pending\n",
        End::Failed => b", failed\n",
    };
    text.extend_from_slice(said)
}

/// The numbers of the operation, and its process.
fn push_heading(
    text: &mut Vec<u8>,
    events: &[Event],
    operation: &Operation,
) -> Result<(), AllocError>
    requires { IsProper events.now }
    ensures { OnOk result (text.new.items ≡ text.old.items
        ++ spec.heading_text events.now operation.now) }
{
    let process = Segment::Natural(process_in(event_at(events, operation.number)));
    push_place(text, operation)?;
    push_segments(
        text,
        &[Segment::Text(b": process "), process, Segment::Text(b", ")],
    )
}

/// What the history says about the operation, and what the part does.
fn push_said(
    text: &mut Vec<u8>,
    recorded: &Operation,
    counted: &Operation,
) -> Result<(), AllocError>
    ensures { OnOk result (text.new.items ≡ text.old.items
        ++ spec.said_text recorded.now counted.now) }
{
    push_call(text, recorded)?;
    push_counted(text, recorded, counted)?;
    push_end(text, counted.end)
}

/// What the history says of the operation, with what the history has at its numbers, and what the
/// part does.
fn push_recorded(
    text: &mut Vec<u8>,
    events: &[Event],
    operation: &Operation,
) -> Result<(), AllocError>
    requires { IsProper events.now }
    ensures { OnOk result (text.new.items ≡ text.old.items
        ++ spec.said_text (spec.operation_in events.now operation.now) operation.now) }
{
    let recorded = operation_in(events, operation);
    push_said(text, &recorded, operation)
}

fn push_operation(
    text: &mut Vec<u8>,
    commented: bool,
    events: &[Event],
    operation: &Operation,
) -> Result<(), AllocError>
    requires { IsProper events.now }
    ensures { OnOk result (text.new.items ≡ text.old.items
        ++ (comment_text commented ++ operation_line events.now operation.now)) }
{
    push_comment(text, commented)?;
    push_heading(text, events, operation)?;
    push_recorded(text, events, operation)
}

fn push_lines(
    text: &mut Vec<u8>,
    commented: bool,
    events: &[Event],
    operations: &[Operation],
) -> Result<(), AllocError>
    requires { IsProper events.now }
    ensures { OnOk result (text.new.items ≡ text.old.items
        ++ operations_text commented events.now operations.now) }
{
    for operation in operations {
        push_operation(text, commented, events, operation)?;
    }
    Ok(())
}

/// Appends a line for each operation of the part, after `; ` if they are comments: its numbers,
/// and what the history says about it. If the part counts it as another operation, or with another
/// reply, that comes after it.
pub fn push_operations(
    text: &mut Vec<u8>,
    commented: bool,
    history: &History,
    part: &ObjectHistory,
) -> Result<(), AllocError>
    ensures { OnOk result (text.new.items ≡ text.old.items
        ++ operations_text commented history.now part.now.ops) }
{
    push_lines(text, commented, history.events(), part.ops())
}
