//! Tests the objects of all kinds: their replies, and how their operations are written and read.

ghost use Rattle.std.specs.Prelude.{◌≡◌, Some, None, IfOk, MatchOption};
ghost use Rattle.model.specs.Objects.{kind_of, kind_with, next};

use seq_objects::AnyReply::Value as Gives;
use seq_objects::{
    AnyObject, AnyOp, AnyReply, Counter, CounterOp, Function, Heap, HeapOp, Kind, Lock, LockOp,
    MapObject, MapOp, Mutex, MutexOp, Queue, QueueOp, Register, RegisterOp, SeqObject, Set, SetOp,
    Stack, StackOp, Value, function_of, kind_name, op_of, reply_of, value_of_op, value_of_reply,
};
use std::alloc::AllocError;
use std::process::Abort;
use std::test::Fail;

/// Does the operation if it is possible, through the bound alone.
fn step<S: SeqObject>(object: &mut S, op: S::Op) -> Result<Option<S::Reply>, AllocError>
    requires { kind_of (S.op_in op) ≡ kind_with (S.content object.old) }
    ensures { IfOk result (λ reply. MatchOption reply
        (next (S.content object.old) (S.op_in op) ≡ None)
        (λ r. next (S.content object.old) (S.op_in op)
        ≡ Some (S.content object.new, S.reply_in r))) }
{
    if object.possible(&op) {
        Ok(Some(object.apply(&op)?))
    } else {
        Ok(None)
    }
}

/// As `step`, for an object of any kind, whose operations and replies are those of all kinds.
fn step_any(object: &mut AnyObject, op: AnyOp) -> Result<Option<AnyReply>, AllocError>
    requires { kind_of op ≡ kind_with (⟦<AnyObject as SeqObject>⟧.content object.old) }
    ensures { IfOk result (λ reply. MatchOption reply
        (next (⟦<AnyObject as SeqObject>⟧.content object.old) op ≡ None)
        (λ r. next (⟦<AnyObject as SeqObject>⟧.content object.old) op
        ≡ Some (⟦<AnyObject as SeqObject>⟧.content object.new, r))) }
{
    step(object, op)
}

/// Does the operations in turn, and tests that each has the reply that its row gives, or is not
/// possible if the row gives none. A copy that is made after the last one is the same.
fn answers<S: SeqObject>(
    rt: &impl Abort,
    mut object: S,
    rows: &[(S::Op, Option<AnyReply>)],
) -> Result<(), Fail> {
    for &(op, expected) in rows {
        assert!(rt; S::kind_of(&op) == object.kind());
        let reply = step(&mut object, op)?.map(|r| S::any_reply(&r));
        assert!(rt; reply == expected);
    }
    let copy = object.try_copy()?;
    assert!(rt; copy.same(&object) && copy.kind() == object.kind());
    Ok(())
}

/// Does what `answers` does, on an object of any kind, by the bound with its equalities of types.
fn sum_answers<S: SeqObject<Op = AnyOp, Reply = AnyReply>>(
    rt: &impl Abort,
    object: S,
    kind: Kind,
    rows: &[(AnyOp, Option<AnyReply>)],
) -> Result<(), Fail> {
    assert!(rt; object.kind() == kind);
    for &(op, _) in rows {
        assert!(rt; S::any_op(&op) == op);
    }
    answers(rt, object, rows)
}

const NIL: Option<AnyReply> = Some(Gives(None));

const YES: Option<AnyReply> = Some(AnyReply::Flag(true));

const NO: Option<AnyReply> = Some(AnyReply::Flag(false));

/// Operations on an object of each kind, which is empty at first, and their replies; none if it
/// is not possible.
const ROWS: [(Kind, &[(AnyOp, Option<AnyReply>)]); 11] = [
    (
        Kind::Queue,
        &[
            (AnyOp::Enqueue(2), Some(Gives(Some(2)))),
            (AnyOp::Enqueue(1), Some(Gives(Some(1)))),
            (AnyOp::Dequeue, Some(Gives(Some(2)))),
            (AnyOp::Dequeue, Some(Gives(Some(1)))),
            (AnyOp::Dequeue, NIL),
            (AnyOp::Enqueue(3), Some(Gives(Some(3)))),
        ],
    ),
    (
        Kind::Stack,
        &[
            (AnyOp::Push(2), Some(Gives(Some(2)))),
            (AnyOp::Push(1), Some(Gives(Some(1)))),
            (AnyOp::Pop, Some(Gives(Some(1)))),
            (AnyOp::Pop, Some(Gives(Some(2)))),
            (AnyOp::Pop, NIL),
            (AnyOp::Push(3), Some(Gives(Some(3)))),
        ],
    ),
    (
        Kind::Heap,
        &[
            (AnyOp::Insert(5), Some(Gives(Some(5)))),
            (AnyOp::Insert(5), Some(Gives(Some(5)))),
            (AnyOp::Insert(-3), Some(Gives(Some(-3)))),
            (AnyOp::ExtractMin, Some(Gives(Some(-3)))),
            (AnyOp::ExtractMin, Some(Gives(Some(5)))),
            (AnyOp::ExtractMin, Some(Gives(Some(5)))),
            (AnyOp::ExtractMin, NIL),
            (AnyOp::Insert(2), Some(Gives(Some(2)))),
        ],
    ),
    (
        Kind::Register,
        &[
            (AnyOp::Read, NIL),
            (AnyOp::Cas(1, 2), Some(AnyReply::NotSwapped)),
            (AnyOp::Write(1), Some(Gives(Some(1)))),
            (AnyOp::Cas(1, 2), Some(AnyReply::Swapped(1, 2))),
            (AnyOp::Read, Some(Gives(Some(2)))),
        ],
    ),
    (
        Kind::Map,
        &[
            (AnyOp::Put(1, 10), NIL),
            (AnyOp::Put(1, 11), Some(Gives(Some(10)))),
            (AnyOp::Get(1), Some(Gives(Some(11)))),
            (AnyOp::Del(1), Some(Gives(Some(11)))),
            (AnyOp::Get(1), NIL),
            (AnyOp::Put(2, 20), NIL),
        ],
    ),
    (
        Kind::Mutex,
        &[
            (AnyOp::Release, None),
            (AnyOp::Acquire, NIL),
            (AnyOp::Acquire, None),
            (AnyOp::Release, NIL),
            (AnyOp::Acquire, NIL),
        ],
    ),
    (
        Kind::Register,
        &[
            (AnyOp::Create(1), YES),
            (AnyOp::Create(2), NO),
            (AnyOp::Read, Some(Gives(Some(1)))),
            (AnyOp::Clear, NIL),
            (AnyOp::Read, NIL),
            (AnyOp::Create(2), YES),
        ],
    ),
    (
        Kind::Map,
        &[
            (AnyOp::PutIfAbsent(1, 10), YES),
            (AnyOp::PutIfAbsent(1, 11), NO),
            (AnyOp::Replace(1, 11, 12), NO),
            (AnyOp::Replace(1, 10, 12), YES),
            (AnyOp::Replace(2, 10, 12), NO),
            (AnyOp::Get(1), Some(Gives(Some(12)))),
            (AnyOp::Assoc(1, 13), NIL),
            (AnyOp::Get(1), Some(Gives(Some(13)))),
            (AnyOp::Dissoc(1), NIL),
            (AnyOp::Dissoc(1), NIL),
            (AnyOp::Get(1), NIL),
            (AnyOp::Assoc(3, 30), NIL),
        ],
    ),
    (
        Kind::Set,
        &[
            (AnyOp::Has(1), NO),
            (AnyOp::Add(1), YES),
            (AnyOp::Add(1), NO),
            (AnyOp::Add(-1), YES),
            (AnyOp::Has(1), YES),
            (AnyOp::Remove(1), YES),
            (AnyOp::Remove(1), NO),
            (AnyOp::Has(1), NO),
            (AnyOp::Has(-1), YES),
        ],
    ),
    (
        Kind::Counter,
        &[
            (AnyOp::GetCount, Some(Gives(Some(0)))),
            (AnyOp::FetchAdd(5), Some(Gives(Some(0)))),
            (AnyOp::FetchAdd(i64::MAX), None),
            (AnyOp::FetchAdd(-7), FIVE),
            (AnyOp::FetchAdd(i64::MIN), None),
            (AnyOp::GetCount, Some(Gives(Some(-2)))),
            (AnyOp::FetchAdd(i64::MIN + 2), Some(Gives(Some(-2)))),
            (AnyOp::GetCount, Some(Gives(Some(i64::MIN)))),
        ],
    ),
    (
        Kind::Lock,
        &[
            (AnyOp::UnlockBy(1), None),
            (AnyOp::LockBy(1), NIL),
            (AnyOp::LockBy(1), None),
            (AnyOp::LockBy(2), None),
            (AnyOp::UnlockBy(2), None),
            (AnyOp::UnlockBy(1), NIL),
            (AnyOp::LockBy(2), NIL),
        ],
    ),
];

#[test]
fn an_object_of_each_kind_answers_as_its_kind_does(rt: HostRuntime) -> Result<(), Fail> {
    for (kind, rows) in ROWS.iter() {
        sum_answers(&rt, AnyObject::empty(rt.alloc(), *kind), *kind, rows)?;
    }
    Ok(())
}

const FIVE: Option<AnyReply> = Some(Gives(Some(5)));

#[test]
fn queue_stack_and_heap_answer_by_their_bound(rt: HostRuntime) -> Result<(), Fail> {
    let rows = [(QueueOp::Enqueue(5), FIVE), (QueueOp::Dequeue, FIVE)];
    answers(&rt, Queue::new(rt.alloc()), &rows)?;
    let rows = [(StackOp::Push(5), FIVE), (StackOp::Pop, FIVE)];
    answers(&rt, Stack::new(rt.alloc()), &rows)?;
    let rows = [(HeapOp::Insert(5), FIVE), (HeapOp::ExtractMin, FIVE)];
    answers(&rt, Heap::new(rt.alloc()), &rows)
}

#[test]
fn register_map_and_mutex_answer_by_their_bound(rt: HostRuntime) -> Result<(), Fail> {
    let (expected, new) = (5, 6);
    let cas = RegisterOp::Cas { expected, new };
    let rows = [
        (RegisterOp::Write(5), FIVE),
        (cas, Some(AnyReply::Swapped(5, 6))),
    ];
    answers(&rt, Register::new(rt.alloc()), &rows)?;
    let put = MapOp::Put { key: 5, value: 6 };
    let rows = [(put, NIL), (MapOp::Get(5), Some(Gives(Some(6))))];
    answers(&rt, MapObject::new(rt.alloc()), &rows)?;
    let rows = [(MutexOp::Acquire, NIL), (MutexOp::Acquire, None)];
    answers(&rt, Mutex::new(rt.alloc()), &rows)
}

#[test]
fn set_counter_and_lock_answer_by_their_bound(rt: HostRuntime) -> Result<(), Fail> {
    let rows = [(SetOp::Add(5), YES), (SetOp::Has(5), YES)];
    answers(&rt, Set::new(rt.alloc()), &rows)?;
    let rows = [
        (CounterOp::FetchAdd(5), Some(Gives(Some(0)))),
        (CounterOp::GetCount, FIVE),
    ];
    answers(&rt, Counter::new(rt.alloc()), &rows)?;
    let rows = [(LockOp::Lock(5), NIL), (LockOp::Unlock(6), None)];
    answers(&rt, Lock::new(rt.alloc()), &rows)
}

#[test]
fn objects_of_other_kinds_or_contents_differ(rt: HostRuntime) -> Result<(), Fail> {
    let mut stack = AnyObject::empty(rt.alloc(), Kind::Stack);
    assert!(rt; !stack.same(&AnyObject::empty(rt.alloc(), Kind::Queue)));
    assert!(rt; stack.kind() == Kind::Stack);
    let _ = step_any(&mut stack, AnyOp::Push(1))?;
    assert!(rt; !stack.same(&AnyObject::empty(rt.alloc(), Kind::Stack)));
    Ok(())
}

#[test]
fn functions_have_their_names(rt: HostRuntime) {
    let names = [
        "enqueue",
        "dequeue",
        "push",
        "pop",
        "insert",
        "extract-min",
        "write",
        "read",
        "cas",
        "put",
        "get",
        "del",
        "acquire",
        "release",
        "clear",
        "create",
        "put-if-absent",
        "replace",
        "assoc",
        "dissoc",
        "add",
        "remove",
        "contains",
        "fetch-add",
        "get-count",
        "lock",
        "unlock",
    ];
    for (f, name) in Function::ALL.into_iter().zip(names) {
        assert!(rt; f.name() == name && Function::named(name.as_bytes()) == Some(f));
    }
    assert!(rt; Function::named(b"extract").is_none() && Function::named(b"").is_none());
    assert!(rt; Function::ExtractMin.kind() == Kind::Heap);
    assert!(rt; kind_name(Kind::Register) == "register");
}

#[test]
fn operations_and_replies_are_written_as_values_and_read_back(rt: HostRuntime) {
    assert!(rt; op_of(Function::Cas, Value::Pair(1, 2)) == Some(AnyOp::Cas(1, 2)));
    assert!(rt; op_of(Function::Dequeue, Value::Int(1)).is_none());
    assert!(rt; function_of(&AnyOp::Del(1)) == Function::Del);
    assert!(rt; value_of_op(&AnyOp::Put(1, 2)) == Value::Pair(1, 2));
    assert!(rt; reply_of(Function::Cas, Value::Int(7)).is_none());
    assert!(rt; reply_of(Function::Enqueue, Value::Nil).is_none());
    assert!(rt; reply_of(Function::Get, Value::Nil) == NIL);
    assert!(rt; value_of_reply(&AnyReply::NotSwapped) == Value::False);
    let replace = AnyOp::Replace(1, 2, 3);
    assert!(rt; op_of(Function::Replace, Value::Triple(1, 2, 3)) == Some(replace));
    assert!(rt; value_of_op(&replace) == Value::Triple(1, 2, 3));
    assert!(rt; op_of(Function::PutIfAbsent, Value::Triple(1, 2, 3)).is_none());
    assert!(rt; reply_of(Function::Add, Value::True) == YES);
    assert!(rt; reply_of(Function::Cas, Value::True).is_none());
    assert!(rt; value_of_reply(&AnyReply::Flag(true)) == Value::True);
}
