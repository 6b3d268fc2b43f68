//! Which kind each object of a desk or a machine has.

ghost use Rattle.std.specs.Prelude.{◌≡◌};
ghost use Rattle.seq_objects.specs.Kinds as spec;
ghost use Rattle.seq_objects.specs.Kinds.{kind_in};

use model::Kind;

/// The kinds of the objects.
#[derive(Clone, Copy, Debug, PartialEq, Eq)]
pub enum Kinds {
    /// All are of one kind.
    One(Kind),
    /// Queue, stack, heap, register and map in turn.
    Mixed,
}

impl Kinds {
    /// The kind of the object with this number.
    pub fn kind(self, object: u32) -> Kind
        ensures { result ≡ kind_in self object }
    {
        match self {
            Kinds::One(kind) => kind,
            Kinds::Mixed => match object % 5 {
                0 => Kind::Queue,
                1 => Kind::Stack,
                2 => Kind::Heap,
                3 => Kind::Register,
                _ => Kind::Map,
            },
        }
    }
}

/// The kinds of the objects of a run for which none are named: queues.
pub fn default_kinds() -> Kinds
    ensures { result ≡ spec.default_kinds }
{
    Kinds::One(Kind::Queue)
}

/// The kinds with this name: that of a kind, or `mixed`.
pub fn kinds_named(name: &[u8]) -> Option<Kinds>
    ensures { result ≡ spec.kinds_named name.now }
{
    if name == "queue".as_bytes() {
        Some(Kinds::One(Kind::Queue))
    } else if name == "stack".as_bytes() {
        Some(Kinds::One(Kind::Stack))
    } else if name == "heap".as_bytes() {
        Some(Kinds::One(Kind::Heap))
    } else if name == "register".as_bytes() {
        Some(Kinds::One(Kind::Register))
    } else if name == "map".as_bytes() {
        Some(Kinds::One(Kind::Map))
    } else if name == "mutex".as_bytes() {
        Some(Kinds::One(Kind::Mutex))
    } else if name == "set".as_bytes() {
        Some(Kinds::One(Kind::Set))
    } else if name == "counter".as_bytes() {
        Some(Kinds::One(Kind::Counter))
    } else if name == "lock".as_bytes() {
        Some(Kinds::One(Kind::Lock))
    } else if name == "mixed".as_bytes() {
        Some(Kinds::Mixed)
    } else {
        None
    }
}
