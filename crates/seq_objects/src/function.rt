//! The names of operations.

ghost use Rattle.std.specs.Prelude.{◌≡◌, ◌≢◌, IfNone, IfSome};
ghost use Rattle.seq_objects.specs.declared.function.Function.{Function};
ghost use Rattle.seq_objects.specs.Functions.{name_of, kind_of_function, word_of};

use model::Kind;

/// The name of an operation, as a history writes it after `:f`.
#[derive(Clone, Copy, Debug, PartialEq, Eq)]
pub enum Function {
    Enqueue,
    Dequeue,
    Push,
    Pop,
    Insert,
    ExtractMin,
    Write,
    Read,
    Cas,
    Put,
    Get,
    Del,
    Acquire,
    Release,
    Clear,
    Create,
    PutIfAbsent,
    Replace,
    Assoc,
    Dissoc,
    Add,
    Remove,
    Has,
    FetchAdd,
    GetCount,
    LockBy,
    UnlockBy,
}

impl Function {
    /// All of them, in the order of the declaration.
    pub const ALL: [Function; 27] = [
        Function::Enqueue,
        Function::Dequeue,
        Function::Push,
        Function::Pop,
        Function::Insert,
        Function::ExtractMin,
        Function::Write,
        Function::Read,
        Function::Cas,
        Function::Put,
        Function::Get,
        Function::Del,
        Function::Acquire,
        Function::Release,
        Function::Clear,
        Function::Create,
        Function::PutIfAbsent,
        Function::Replace,
        Function::Assoc,
        Function::Dissoc,
        Function::Add,
        Function::Remove,
        Function::Has,
        Function::FetchAdd,
        Function::GetCount,
        Function::LockBy,
        Function::UnlockBy,
    ];

    /// The name without a colon.
    pub fn name(self) -> &'static str
        ensures { result.now ≡ name_of self }
    {
        match self {
            Function::Enqueue => "enqueue",
            Function::Dequeue => "dequeue",
            Function::Push => "push",
            Function::Pop => "pop",
            Function::Insert => "insert",
            Function::ExtractMin => "extract-min",
            Function::Write => "write",
            Function::Read => "read",
            Function::Cas => "cas",
            Function::Put => "put",
            Function::Get => "get",
            Function::Del => "del",
            Function::Acquire => "acquire",
            Function::Release => "release",
            Function::Clear => "clear",
            Function::Create => "create",
            Function::PutIfAbsent => "put-if-absent",
            Function::Replace => "replace",
            Function::Assoc => "assoc",
            Function::Dissoc => "dissoc",
            Function::Add => "add",
            Function::Remove => "remove",
            Function::Has => "contains",
            Function::FetchAdd => "fetch-add",
            Function::GetCount => "get-count",
            Function::LockBy => "lock",
            Function::UnlockBy => "unlock",
        }
    }

    /// The one with this name.
    pub fn named(name: &[u8]) -> Option<Function>
        ensures found { IfSome result (λ f. name_of f ≡ name.now) }
        ensures unknown { IfNone result ((f : Function) → name_of f ≢ name.now) }
    {
        for f in Function::ALL {
            if f.name().as_bytes() == name {
                return Some(f);
            }
        }
        None
    }

    /// The kind of objects that have operations of this name.
    pub fn kind(self) -> Kind
        ensures { result ≡ kind_of_function self }
    {
        match self {
            Function::Enqueue | Function::Dequeue => Kind::Queue,
            Function::Push | Function::Pop => Kind::Stack,
            Function::Insert | Function::ExtractMin => Kind::Heap,
            Function::Write | Function::Read | Function::Cas | Function::Clear | Function::Create =>
                Kind::Register,
            Function::Put
            | Function::Get
            | Function::Del
            | Function::PutIfAbsent
            | Function::Replace
            | Function::Assoc
            | Function::Dissoc => Kind::Map,
            Function::Acquire | Function::Release => Kind::Mutex,
            Function::Add | Function::Remove | Function::Has => Kind::Set,
            Function::FetchAdd | Function::GetCount => Kind::Counter,
            Function::LockBy | Function::UnlockBy => Kind::Lock,
        }
    }
}

/// The word for a kind.
pub fn kind_name(kind: Kind) -> &'static str
    ensures { result.now ≡ word_of kind }
{
    match kind {
        Kind::Queue => "queue",
        Kind::Stack => "stack",
        Kind::Heap => "heap",
        Kind::Register => "register",
        Kind::Map => "map",
        Kind::Mutex => "mutex",
        Kind::Set => "set",
        Kind::Counter => "counter",
        Kind::Lock => "lock",
    }
}
