//! What is open while an element is read: of what kind, and the keys of each map.

ghost use Rattle.std.specs.Prelude.{◌≡◌, [], List, ℕ, IfOk, OnOk, IfSome, IfNone, true, false};
ghost use Rattle.std.specs.Str.{bytes_eq};
ghost use Rattle.std.specs.Option.{ForSome};
ghost use Rattle.edn_reader.specs.NameSets.{HasNames};
ghost use Rattle.edn_reader.specs.Shapes as spec;

use crate::fault::Cause;
use crate::piece::Piece;
use std::alloc::{AllocError, Global};
use std::collections::HashSet;
use std::mem;

/// How many vectors and maps may be open at once.
pub const MAX_OPEN: usize = 16;

/// From how many keys on they are in a set too.
const MANY: usize = 16;

/// The keys of a map so far, in order, and a set of them once there are many. A key that waits for
/// its value is the last. Keys stay where they are in the text. The set is in a box, since levels
/// are moved as maps are opened and closed.
#[derive(Drop)]
pub struct Keys<'a> {
    names: Vec<&'a str>,
    waits: bool,
    set: Option<Box<HashSet<&'a str>>>,
    ghost known: { ForSome set (λ s. HasNames s.value (spec.name_views names.items)) },
}

/// What is open: the text itself, a vector or a map.
#[derive(Drop)]
pub enum Level<'a> {
    Text,
    Vector,
    Map(Keys<'a>),
}

/// What is open: the innermost level, how many vectors are directly around it, and the other
/// levels, the outermost first; and room for the keys of the next map.
#[derive(Drop)]
pub struct Levels<'a> {
    inner: Level<'a>,
    vectors: u8,
    outer: Vec<Level<'a>>,
    spare: Vec<&'a str>,
}

/// Whether one of the first two bytes differs, as for most names of one length. Shorter names are
/// not compared.
#[inline(always)]
fn differ_early(a: &[u8], b: &[u8]) -> bool
    ensures { result ≡ true → bytes_eq a.now b.now ≡ false }
{
    match (a, b) {
        ([x, more, ..], [y, others, ..]) => *x != *y || *more != *others,
        _ => false,
    }
}

/// Whether the name is one of these, one by one.
#[inline(always)]
fn is_one_of(names: &[&str], name: &str) -> bool
    ensures { result ≡ spec.has_name name.now (spec.name_views names.now) }
{
    let mut rest = names;
    'names: while let [known, tail @ ..] = rest {
        // Most names differ in length or early, and then nothing is called to compare them.
        if name.len() == known.len()
            && !differ_early(name.as_bytes(), known.as_bytes())
            && name == *known
        {
            return true;
        }
        rest = tail;
    }
    false
}

/// A set of the names, which stay where they are.
fn set_of<'a>(alloc: Global, names: &[&'a str]) -> Result<HashSet<&'a str>, AllocError>
    ensures { IfOk result (λ set. HasNames set (spec.name_views names.entry.now)) }
{
    let mut set = HashSet::new(alloc);
    for name in names {
        set.insert(*name)?;
    }
    Ok(set)
}

impl<'a> Keys<'a> {
    ghost use Rattle.std.specs.Prelude.{Some, None, ◌++◌, ◌∷◌};
    ghost use Rattle.edn_reader.specs.Results.{Becomes};
    ghost use Rattle.edn_reader.specs.Levels.{keys_shape};

    /// No keys yet. `room` is emptied, and its memory is used again.
    fn new(mut room: Vec<&'a str>) -> Keys<'a>
        ensures { keys_shape result ≡ spec.a_map false [] }
    {
        room.clear();
        Keys {
            names: room,
            waits: false,
            set: None,
        }
    }

    /// One more name, if there is no set, which may ask for room.
    #[cold]
    #[inline(never)]
    fn push_growing(&mut self, name: &'a str) -> Result<(), AllocError>
        requires { self.old.set ≡ None }
        ensures names { OnOk result (spec.name_views self.new.names.items
            ≡ spec.name_views self.old.names.items ++ name.entry.now ∷ []) }
        ensures waits { OnOk result (self.new.waits ≡ self.old.waits) }
    {
        self.names.push(name)?;
        Ok(())
    }

    /// One more name, if there is no set.
    #[inline(always)]
    fn push(&mut self, alloc: Global, name: &'a str) -> Result<(), AllocError>
        requires { self.old.set ≡ None }
        ensures names { OnOk result (spec.name_views self.new.names.items
            ≡ spec.name_views self.old.names.items ++ name.entry.now ∷ []) }
        ensures waits { OnOk result (self.new.waits ≡ self.old.waits) }
    {
        if self.names.len() >= MANY {
            return self.push_to_many(alloc, name);
        }
        // Most pushes find room: these are made here, and only the others by a call.
        if self.names.len() < self.names.capacity() {
            self.names.push_reserved(name);
            return Ok(());
        }
        self.push_growing(name)
    }

    /// One more name, with which they are in a set.
    #[cold]
    #[inline(never)]
    fn push_to_many(&mut self, alloc: Global, name: &'a str) -> Result<(), AllocError>
        requires { self.old.set ≡ None }
        ensures names { OnOk result (spec.name_views self.new.names.items
            ≡ spec.name_views self.old.names.items ++ name.entry.now ∷ []) }
        ensures waits { OnOk result (self.new.waits ≡ self.old.waits) }
    {
        self.names.push(name)?;
        let set = set_of(alloc, self.names.as_slice())?;
        self.set = Some(Box::new(alloc, set)?);
        Ok(())
    }

    /// A key, which then waits for its value, if there is no set.
    #[inline(always)]
    fn put_in_few(&mut self, alloc: Global, name: &'a str) -> Result<(), Cause>
        requires { self.old.set ≡ None }
        ensures { Becomes result
            (spec.put_key_in (spec.name_views self.old.names.items) (Some name.entry.now))
            (keys_shape self.new) }
    {
        if is_one_of(self.names.as_slice(), name) {
            return Err(Cause::DuplicateKey);
        }
        self.push(alloc, name)?;
        self.waits = true;
        Ok(())
    }

    /// The same, if this is the set of the names.
    fn put_in_many(&mut self, mut set: Box<HashSet<&'a str>>, name: &'a str) -> Result<(), Cause>
        requires { HasNames set.value (spec.name_views self.old.names.items) }
        ensures { Becomes result
            (spec.put_key_in (spec.name_views self.old.names.items) (Some name.entry.now))
            (keys_shape self.new) }
    {
        if !set.insert(name)? {
            return Err(Cause::DuplicateKey);
        }
        self.names.push(name)?;
        self.set = Some(set);
        self.waits = true;
        Ok(())
    }

    /// The same, with a set or without.
    // Apart from what takes the keys of small maps, so that a set is not moved there.
    #[inline(never)]
    fn put_in_any(&mut self, alloc: Global, name: &'a str) -> Result<(), Cause>
        ensures { Becomes result
            (spec.put_key_in (spec.name_views self.old.names.items) (Some name.entry.now))
            (keys_shape self.new) }
    {
        match self.set.take() {
            Some(set) => self.put_in_many(set, name),
            None => self.put_in_few(alloc, name),
        }
    }

    /// A key, which then waits for its value. Do not use the keys after an error.
    #[inline(always)]
    fn put_key(&mut self, alloc: Global, name: &'a str) -> Result<(), Cause>
        ensures { Becomes result
            (spec.put_key_in (spec.name_views self.old.names.items) (Some name.entry.now))
            (keys_shape self.new) }
    {
        if self.set.is_none() {
            return self.put_in_few(alloc, name);
        }
        self.put_in_any(alloc, name)
    }

    /// A keyword: a key, or the value of the key that waits.
    #[inline(always)]
    fn put_keyword(&mut self, alloc: Global, name: &'a str) -> Result<(), Cause>
        ensures { Becomes result (spec.put_in (keys_shape self.old) (Some name.entry.now))
            (keys_shape self.new) }
    {
        if self.waits {
            self.waits = false;
            return Ok(());
        }
        self.put_key(alloc, name)
    }

    /// A value that is no keyword.
    fn put_value(&mut self) -> Result<(), Cause>
        ensures { Becomes result (spec.put_in (keys_shape self.old) None) (keys_shape self.new) }
    {
        if !self.waits {
            return Err(Cause::KeyKind);
        }
        self.waits = false;
        Ok(())
    }

    /// The room that the names are in.
    fn into_room(self) -> Vec<&'a str> {
        let Keys {
            names,
            waits: _,
            set: _,
        } = self;
        names
    }
}

impl<'a> Level<'a> {
    ghost use Rattle.std.specs.Prelude.{Some};
    ghost use Rattle.edn_reader.specs.Results.{Becomes};
    ghost use Rattle.edn_reader.specs.Levels.{level_shape};

    /// Takes in a value that is no keyword.
    #[inline]
    fn put_value(&mut self) -> Result<(), Cause>
        ensures { Becomes result (spec.put_in (level_shape self.old) None) (level_shape self.new) }
    {
        match self {
            Level::Text => Ok(()),
            Level::Vector => Ok(()),
            Level::Map(keys) => keys.put_value(),
        }
    }

    /// Takes in a keyword: a key, or a value.
    #[inline(always)]
    fn put_keyword(&mut self, alloc: Global, name: &'a str) -> Result<(), Cause>
        ensures { Becomes result (spec.put_in (level_shape self.old) (Some name.entry.now))
            (level_shape self.new) }
    {
        match self {
            Level::Text => Ok(()),
            Level::Vector => Ok(()),
            Level::Map(keys) => keys.put_keyword(alloc, name),
        }
    }

    /// Whether a key comes next.
    #[inline]
    fn takes_key(&self) -> bool
        ensures { result ≡ spec.waits_for_key (level_shape self.now) }
    {
        match self {
            Level::Map(keys) => !keys.waits,
            _ => false,
        }
    }
}

impl<'a> Levels<'a> {
    ghost use Rattle.std.specs.Prelude.{Some, ◌==◌, length};
    ghost use Rattle.edn_reader.specs.Results.{Becomes};
    ghost use Rattle.edn_reader.specs.Levels.{level_shape, levels_shapes, within};
    ghost use Rattle.edn_reader.specs.Pieces.{piece_token};

    /// Nothing is open but the text.
    pub fn new(alloc: Global) -> Levels<'a>
        ensures { levels_shapes result ≡ spec.nothing_open }
    {
        Levels {
            inner: Level::Text,
            vectors: 0,
            outer: Vec::new(alloc),
            spare: Vec::new(alloc),
        }
    }

    /// Puts the vectors that are only counted among the other levels.
    #[tactic(auto, using(crate::proofs::Nested::levels_push, crate::proofs::Nested::vectors_before))]
    fn list_vectors(&mut self) -> Result<(), AllocError>
        ensures listed { OnOk result (self.new.vectors ≡ 0) }
        ensures same { OnOk result (levels_shapes self.new ≡ levels_shapes self.old) }
    {
        'vectors: while self.vectors > 0 {
            self.outer.push(Level::Vector)?;
            self.vectors -= 1;
        }
        Ok(())
    }

    /// One more level, which may ask for room.
    #[cold]
    #[inline(never)]
    #[tactic(auto, using(crate::proofs::Nested::levels_push))]
    fn open_growing(&mut self, level: Level<'a>) -> Result<(), AllocError>
        ensures { OnOk result
            (levels_shapes self.new ≡ within (level_shape level.entry) (levels_shapes self.old)) }
    {
        self.list_vectors()?;
        let inner = mem::replace(&mut self.inner, level);
        self.outer.push(inner)?;
        Ok(())
    }

    /// How many levels are around the innermost.
    #[inline(always)]
    #[tactic(auto, using(crate::proofs::Nested::length_levels, crate::proofs::Nested::length_vectors))]
    fn count(&self) -> usize
        ensures { result ≡ length (levels_shapes self.now).outer }
    {
        self.outer.len() + usize::from(self.vectors)
    }

    /// Opens one more level.
    #[inline(always)]
    #[tactic(auto, using(crate::proofs::Nested::levels_push, crate::proofs::Nested::length_levels))]
    fn open(&mut self, level: Level<'a>) -> Result<(), Cause>
        ensures { Becomes result (spec.opened (level_shape level.entry) (levels_shapes self.old))
            (levels_shapes self.new) }
    {
        if self.inner.takes_key() {
            return Err(Cause::KeyKind);
        }
        if self.count() >= MAX_OPEN {
            return Err(Cause::TooDeep);
        }
        // Most levels find room: these are opened here, and only the others by a call.
        if self.vectors == 0 && self.outer.len() < self.outer.capacity() {
            let inner = mem::replace(&mut self.inner, level);
            self.outer.push_reserved(inner);
            return Ok(());
        }
        self.open_growing(level)?;
        Ok(())
    }

    fn open_map(&mut self, alloc: Global) -> Result<(), Cause>
        ensures { Becomes result (spec.opened (spec.a_map false []) (levels_shapes self.old))
            (levels_shapes self.new) }
    {
        let room = mem::replace(&mut self.spare, Vec::new(alloc));
        self.open(Level::Map(Keys::new(room)))
    }

    /// Opens a vector. One in a vector is only counted.
    #[inline(always)]
    #[tactic(auto, using(crate::proofs::Nested::length_levels, crate::proofs::Nested::length_vectors))]
    fn open_vector(&mut self) -> Result<(), Cause>
        ensures { Becomes result (spec.opened spec.a_vector (levels_shapes self.old))
            (levels_shapes self.new) }
    {
        match self.inner {
            Level::Vector if self.count() < MAX_OPEN => {
                self.vectors += 1;
                Ok(())
            }
            _ => self.open(Level::Vector),
        }
    }

    /// The innermost level, whose place the one round it takes.
    #[inline(always)]
    #[tactic(auto, using(crate::proofs::Nested::levels_push))]
    fn leave(&mut self) -> Option<Level<'a>>
        ensures left { IfSome result (λ l.
            levels_shapes self.old ≡ within (level_shape l) (levels_shapes self.new)) }
        ensures none { IfNone result ((levels_shapes self.old).outer ≡ []) }
    {
        let level = if self.vectors > 0 {
            self.vectors -= 1;
            Level::Vector
        } else {
            self.outer.pop()?
        };
        Some(mem::replace(&mut self.inner, level))
    }

    /// Closes a vector. One in a vector is only counted.
    #[inline(always)]
    #[tactic(auto, using(crate::proofs::Nested::levels_push))]
    fn close_vector(&mut self) -> Result<(), Cause>
        ensures { let s = levels_shapes self.old in
            Becomes result (spec.vector_closed s.inner s.outer) (levels_shapes self.new) }
    {
        let Level::Vector = self.inner else {
            return Err(Cause::BadToken);
        };
        if self.vectors > 0 {
            self.vectors -= 1;
            return Ok(());
        }
        if self.leave().is_none() {
            return Err(Cause::BadToken);
        }
        self.inner.put_value()
    }

    fn close_map(&mut self) -> Result<(), Cause>
        ensures { let s = levels_shapes self.old in
            Becomes result (spec.map_closed s.inner s.outer) (levels_shapes self.new) }
    {
        let Some(Level::Map(keys)) = self.leave() else {
            return Err(Cause::BadToken);
        };
        if keys.waits {
            return Err(Cause::OddMap);
        }
        self.spare = keys.into_room();
        self.inner.put_value()
    }

    /// Takes one more token. Do not use the levels after an error.
    #[inline(always)]
    #[tactic(auto, unfolding(crate::specs::Shapes::shape_step))]
    pub fn step(&mut self, alloc: Global, piece: &Piece<'a>) -> Result<(), Cause>
        ensures { Becomes result (spec.shape_step (piece_token piece.now) (levels_shapes self.old))
            (levels_shapes self.new) }
    {
        match piece {
            Piece::OpenVector => self.open_vector(),
            Piece::OpenMap => self.open_map(alloc),
            Piece::CloseVector => self.close_vector(),
            Piece::CloseMap => self.close_map(),
            Piece::Keyword(name) => self.inner.put_keyword(alloc, name),
            Piece::Nil => self.inner.put_value(),
            Piece::True => self.inner.put_value(),
            Piece::False => self.inner.put_value(),
            Piece::Int(_) => self.inner.put_value(),
            Piece::Str(_) => self.inner.put_value(),
        }
    }

    /// Whether a key comes next.
    #[inline]
    pub fn takes_key(&self) -> bool
        ensures { result ≡ spec.waits_for_key (levels_shapes self.now).inner }
    {
        self.inner.takes_key()
    }

    /// Whether nothing but the text is open.
    #[inline]
    #[tactic(auto, using(crate::proofs::Nested::length_levels, crate::proofs::Nested::length_vectors))]
    pub fn is_outermost(&self) -> bool
        ensures { result ≡ (length (levels_shapes self.now).outer == 0) }
    {
        self.outer.is_empty() && self.vectors == 0
    }
}
