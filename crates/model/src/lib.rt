//! The data of operations and replies, and the definitions that every other crate speaks of: what
//! objects contain, histories, linearizability, and valid orders. The definitions are in `specs/`.
#![tactic(auto)]

/// Which operations an object has.
#[derive(Clone, Copy, Debug, PartialEq, Eq, Hash)]
pub enum Kind {
    Queue,
    Stack,
    Heap,
    Register,
    Map,
    Mutex,
    Set,
    Counter,
    /// A lock that knows its owner.
    Lock,
}

/// An operation with its argument.
#[derive(Clone, Copy, Debug, PartialEq, Eq)]
pub enum AnyOp {
    Enqueue(i64),
    Dequeue,
    Push(i64),
    Pop,
    Insert(i64),
    ExtractMin,
    Write(i64),
    Read,
    /// The value that is expected, and the new one.
    Cas(i64, i64),
    /// The key, and its new value.
    Put(i64, i64),
    Get(i64),
    Del(i64),
    Acquire,
    Release,
    /// Leaves nothing in a register.
    Clear,
    /// Writes the value if a register contains nothing.
    Create(i64),
    /// The key, and the value that it gets if it has none.
    PutIfAbsent(i64, i64),
    /// The key, the value that is expected, and the new one.
    Replace(i64, i64, i64),
    /// The key, and its new value. The reply does not tell the earlier one.
    Assoc(i64, i64),
    /// The key that is removed. The reply does not tell its value.
    Dissoc(i64),
    Add(i64),
    Remove(i64),
    /// Whether a set has the value.
    Has(i64),
    /// Adds to a counter.
    FetchAdd(i64),
    GetCount,
    /// The owner that takes a lock.
    LockBy(i64),
    /// The owner that frees it.
    UnlockBy(i64),
}

/// The reply of an operation.
#[derive(Clone, Copy, Debug, PartialEq, Eq)]
pub enum AnyReply {
    /// A value, or nil.
    Value(Option<i64>),
    /// A compare-and-set that took place, with its two values.
    Swapped(i64, i64),
    NotSwapped,
    /// The answer of a test, or whether a conditional change took place.
    Flag(bool),
}
