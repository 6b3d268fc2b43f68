//! The text of a record's history.

ghost use Rattle.std.specs.Prelude.{◌≡◌, ◌<◌, ◌^◌, ◌++◌, false, true, codes, All, IfErr};
ghost use Rattle.std.specs.Prelude.{IfOk, OnOk};
ghost use Rattle.std.specs.Fmt.{signed_decimal};
ghost use Rattle.std.specs.Io.KnownBytes.{Appends, Keeps};
ghost use Rattle.edn.specs.Sent.{WritesPrefix};
ghost use Rattle.edn_reader.specs.Text.{InProfile, IsInt64};
ghost use Rattle.recorder.specs.Histories.{journals_in};
ghost use Rattle.transcript.specs.Lines as spec;
ghost use Rattle.transcript.specs.Segments as text;
ghost use Rattle.transcript.specs.Written.{AppendsHistory, SendsFrontOfHistory};

use crate::line::{Line, lines_of};
use edn::{Failed, Out, Sink, WriteFault, write_bytes, write_integer, write_natural};
use events::Action;
use recorder::Record;
use seq_objects::{SeqObject, Value, function_of, value_of_op, value_of_reply};
use std::alloc::{AllocError, Global};

fn type_name(action: &Action) -> &'static [u8]
    ensures { result.now ≡ spec.type_of action.now }
{
    match action {
        Action::Invoke(_) => b"invoke",
        Action::Ok(_) => b"ok",
        Action::Fail => b"fail",
        Action::Info => b"info",
    }
}

/// The reply of a call that returned one, else the argument.
fn value_in(line: &Line) -> Value
    ensures { result ≡ spec.map_value line.now.op line.now.event.action }
{
    match &line.event.action {
        Action::Ok(reply) => value_of_reply(reply),
        Action::Invoke(_) | Action::Fail | Action::Info => value_of_op(&line.op),
    }
}

/// The last two integers of a vector, and its bracket.
fn write_last_two<S: Sink>(a: i64, b: i64, sink: &mut S) -> Result<(), Failed>
    requires { S.broken sink.old ≡ false }
    ensures ok { OnOk result (Appends (S.sent sink.old) (S.sent sink.new)
        (signed_decimal a ++ (codes " " ++ (signed_decimal b ++ codes "]")))) }
    ensures in_profile { OnOk result (IsInt64 a × IsInt64 b) }
    ensures usable { OnOk result (S.broken sink.new ≡ false) }
{
    write_integer(a, sink)?;
    write_bytes(b" ", sink)?;
    write_integer(b, sink)?;
    write_bytes(b"]", sink)
}

fn write_pair<S: Sink>(a: i64, b: i64, sink: &mut S) -> Result<(), Failed>
    requires { S.broken sink.old ≡ false }
    ensures ok { OnOk result (Appends (S.sent sink.old) (S.sent sink.new) (codes "["
        ++ (signed_decimal a ++ (codes " " ++ (signed_decimal b ++ codes "]"))))) }
    ensures in_profile { OnOk result (IsInt64 a × IsInt64 b) }
    ensures usable { OnOk result (S.broken sink.new ≡ false) }
{
    write_bytes(b"[", sink)?;
    write_last_two(a, b, sink)
}

/// The last three integers of a vector, and its bracket.
fn write_last_three<S: Sink>(a: i64, b: i64, c: i64, sink: &mut S) -> Result<(), Failed>
    requires { S.broken sink.old ≡ false }
    ensures ok { OnOk result (Appends (S.sent sink.old) (S.sent sink.new) (signed_decimal a
        ++ (codes " " ++ (signed_decimal b ++ (codes " " ++ (signed_decimal c ++ codes "]")))))) }
    ensures in_profile { OnOk result (IsInt64 a × IsInt64 b × IsInt64 c) }
    ensures usable { OnOk result (S.broken sink.new ≡ false) }
{
    write_integer(a, sink)?;
    write_bytes(b" ", sink)?;
    write_last_two(b, c, sink)
}

fn write_triple<S: Sink>(a: i64, b: i64, c: i64, sink: &mut S) -> Result<(), Failed>
    requires { S.broken sink.old ≡ false }
    ensures ok { OnOk result (Appends (S.sent sink.old) (S.sent sink.new) (codes "["
        ++ (signed_decimal a ++ (codes " " ++ (signed_decimal b ++ (codes " "
        ++ (signed_decimal c ++ codes "]"))))))) }
    ensures in_profile { OnOk result (IsInt64 a × IsInt64 b × IsInt64 c) }
    ensures usable { OnOk result (S.broken sink.new ≡ false) }
{
    write_bytes(b"[", sink)?;
    write_last_three(a, b, c, sink)
}

fn write_value<S: Sink>(value: Value, sink: &mut S) -> Result<(), Failed>
    requires { S.broken sink.old ≡ false }
    ensures ok { OnOk result (Appends (S.sent sink.old) (S.sent sink.new) (text.value_text value)) }
    ensures in_profile { OnOk result (InProfile (spec.value_form value)) }
    ensures usable { OnOk result (S.broken sink.new ≡ false) }
{
    match value {
        Value::Nil => write_bytes(b"nil", sink),
        Value::False => write_bytes(b"false", sink),
        Value::True => write_bytes(b"true", sink),
        Value::Int(n) => write_integer(n, sink),
        Value::Pair(a, b) => write_pair(a, b, sink),
        Value::Triple(a, b, c) => write_triple(a, b, c, sink),
    }
}

/// The process and the type.
fn write_process<S: Sink>(line: &Line, sink: &mut S) -> Result<(), Failed>
    requires { S.broken sink.old ≡ false }
    ensures ok { OnOk result (Appends (S.sent sink.old) (S.sent sink.new)
        (text.process_text line.now)) }
    ensures usable { OnOk result (S.broken sink.new ≡ false) }
{
    write_bytes(b"{:process ", sink)?;
    write_natural(line.event.process, sink)?;
    write_bytes(b", :type :", sink)?;
    write_bytes(type_name(&line.event.action), sink)
}

/// The name of the operation and the value.
fn write_operation<S: Sink>(line: &Line, sink: &mut S) -> Result<(), Failed>
    requires { S.broken sink.old ≡ false }
    ensures ok { OnOk result (Appends (S.sent sink.old) (S.sent sink.new)
        (text.operation_text line.now)) }
    ensures in_profile { OnOk result
        (InProfile (spec.value_form (spec.map_value line.now.op line.now.event.action))) }
    ensures usable { OnOk result (S.broken sink.new ≡ false) }
{
    write_bytes(b", :f :", sink)?;
    write_bytes(function_of(&line.op).name().as_bytes(), sink)?;
    write_bytes(b", :value ", sink)?;
    write_value(value_in(line), sink)
}

fn write_object<S: Sink>(object: u32, sink: &mut S) -> Result<(), Failed>
    requires { S.broken sink.old ≡ false }
    ensures ok { OnOk result (Appends (S.sent sink.old) (S.sent sink.new)
        (text.object_text object)) }
    ensures low { object < 2 ^ 63 }
    ensures usable { OnOk result (S.broken sink.new ≡ false) }
{
    write_bytes(b", :object ", sink)?;
    write_natural(u64::from(object), sink)?;
    write_bytes(b"}\n", sink)
}

fn write_line<S: Sink>(line: &Line, sink: &mut S) -> Result<(), Failed>
    requires working { S.broken sink.old ≡ false }
    requires low { line.now.event.process < 2 ^ 63 }
    ensures ok { OnOk result (Appends (S.sent sink.old) (S.sent sink.new)
        (text.line_text line.now)) }
    ensures in_profile { OnOk result (InProfile (spec.form_of line.now)) }
    ensures usable { OnOk result (S.broken sink.new ≡ false) }
{
    write_process(line, sink)?;
    write_operation(line, sink)?;
    write_object(line.event.object, sink)
}

fn write_lines<S: Sink>(lines: &[Line], sink: &mut S) -> Result<(), Failed>
    requires working { S.broken sink.old ≡ false }
    requires low { All (λ l. l.event.process < 2 ^ 63) lines.now }
    ensures ok { OnOk result (Appends (S.sent sink.old) (S.sent sink.new)
        (text.lines_text lines.now)) }
    ensures in_profile { OnOk result (All (λ l. InProfile (spec.form_of l)) lines.now) }
    ensures usable { OnOk result (S.broken sink.new ≡ false) }
{
    for line in lines {
        write_line(line, sink)?;
    }
    Ok(())
}

/// The text of these lines.
pub(crate) fn history_text(alloc: Global, lines: &[Line]) -> Result<Vec<u8>, AllocError>
    requires { All (λ l. l.event.process < 2 ^ 63) lines.now }
    ensures text { IfOk result (λ v. v.items ≡ spec.history_text lines.now) }
    ensures in_profile { IfOk result (λ _. All (λ l. InProfile (spec.form_of l)) lines.now) }
{
    let mut sink = Out::new(Vec::new(alloc));
    match write_lines(lines, &mut sink) {
        Ok(()) => Ok(sink.into_inner()),
        Err(Failed) => Err(AllocError),
    }
}

/// Writes the lines of a record's history, in order of tickets. If an allocation fails nothing is
/// sent.
pub fn write_history<S: SeqObject, K: Sink>(
    alloc: Global,
    recorded: &Record<S>,
    sink: &mut K,
) -> Result<(), WriteFault>
    requires { K.broken sink.old ≡ false }
    ensures ok { OnOk result
        (AppendsHistory (journals_in S.op_in S.reply_in recorded.now) (K.sent sink.old)
        (K.sent sink.new)) }
    ensures usable { OnOk result (K.broken sink.new ≡ false) }

    ensures front { IfErr result (λ e. e ≡ WriteFault.Device →
        SendsFrontOfHistory (journals_in S.op_in S.reply_in recorded.now) (K.sent sink.old)
        (K.sent sink.new)) }
    ensures failed { IfErr result (λ e. e ≡ WriteFault.Device → K.broken sink.new ≡ true) }
    ensures memory { IfErr result (λ e. e ≡ WriteFault.NoMemory → sink.new ≡ sink.old) }
{
    let Ok(lines) = lines_of(alloc, recorded) else {
        return Err(WriteFault::NoMemory);
    };
    let Ok(text) = history_text(alloc, &lines) else {
        return Err(WriteFault::NoMemory);
    };
    match write_bytes(&text, sink) {
        Ok(()) => Ok(()),
        Err(Failed) => Err(WriteFault::Device),
    }
}
