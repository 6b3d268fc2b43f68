//! The publication list of an object: a client puts its row in front, and who holds the object
//! walks it.

ghost use Rattle.std.specs.Prelude.{◌≡◌, ◌<◌, ◌≤◌, ◌∷◌, ◌++◌, All, [], length, remove, slice_index};
ghost use Rattle.std.specs.Prelude.{slice_set, OnOk};
ghost use Rattle.desk_model.specs.Limits.{max_clients};
ghost use Rattle.publication_list.specs.PublicationList.{WalkMeets};
ghost use Rattle.publication.specs.Handles.{HasPlaceAt, IsListOf, trying};

use crate::client::{Client, Pass};
use crate::desk::Desk;
use publication_list::Enlist;
use seq_objects::SeqObject;
use std::alloc::AllocError;

impl<S: SeqObject> Desk<S> {
    /// Tries once to put the client's row at the head of the publication list of the object.
    /// Already: it is marked active; Listed: it was put in; Missed: another row came first. The
    /// places remember the try, which only a step on that list can add.
    pub fn enlist(&self, client: &mut Client<S>, object: u32) -> Enlist
        requires client { client.old.desk ≡ self.now.id }
        requires object { object < length self.now.id.kinds }
        ensures tried { client.new
            ≡ record client.old { places = trying object result client.old.places } }
        // The place is of the client's own row, in the list of this object.
        ensures own { HasPlaceAt client.old object }
    {
        // There are 16 objects at most, and a place for each.
        let _ = &self.kinds;
        client.member.enlist(object as usize)
    }
}

impl<S: SeqObject> Pass<S> {
    /// Walks the object's publication list: it meets newcomers, and then the rows that the last
    /// combiner left, in their order. They are the whole list at one moment of this walk, as a load
    /// of its head found it.
    pub fn walk(&mut self)
        ensures same { self.new
            ≡ record self.old { state = record self.old.state { list = self.new.state.list } } }
        // It is the list in which clients enlist for this object.
        ensures list { IsListOf self.new.desk self.new.object self.new.state.list.roster }
        ensures met { WalkMeets self.old.state.list.rows self.new.state.list.rows }
        ensures looked { self.new.state.list.walks ≡ self.old.state.list.walks
            ++ self.new.state.list.rows ∷ [] }
    {
        self.core.inside.list.walk();
    }

    /// The rows that the last walk met, less those unlinked since.
    pub fn rows(&self) -> &[u32]
        ensures rows { result.now ≡ self.now.state.list.rows }
        ensures list { IsListOf self.now.desk self.now.object self.now.state.list.roster }
        ensures low { All (λ row. row < max_clients) self.now.state.list.rows }
        ensures few { length self.now.state.list.rows ≤ max_clients }
    {
        self.core.inside.list.rows()
    }

    /// Takes the row at this place, which is not the first that was met, out of the list, and marks
    /// it inactive, so that its owner can list it again. A later walk meets it only as a newcomer.
    pub fn unlink(&mut self, at: usize)
        requires { (1 ≤ at) × (at < length self.old.state.list.rows) }
        ensures unlinked { self.new
            ≡ record self.old {
              state = record self.old.state {
                list = record self.old.state.list {
                  rows = remove self.old.state.list.rows at;
                };
              };
            } }
        ensures list { IsListOf self.new.desk self.new.object self.new.state.list.roster }
    {
        self.core.inside.list.unlink(at);
    }

    /// The number of the pass that last set the row's age, 0 before.
    pub fn age(&self, row: u32) -> u64
        requires { row < max_clients }
        ensures { result ≡ slice_index self.now.state.ages row }
    {
        self.core.inside.ages[row as usize]
    }

    /// Gives the row the number of this pass as its age.
    pub fn set_age(&mut self, row: u32)
        requires { row < max_clients }
        ensures { self.new
            ≡ record self.old {
              state = record self.old.state
                  { ages = slice_set self.old.state.ages row self.old.state.passes };
            } }
    {
        let core = &mut self.core.inside;
        core.ages[row as usize] = core.passes;
    }

    /// Makes room in the log for this many entries.
    pub fn reserve(&mut self, entries: usize) -> Result<(), AllocError>
        ensures same { self.new
            ≡ record self.old { state = record self.old.state { room = self.new.state.room } } }
        ensures room { OnOk result (entries ≤ self.new.state.room) }
    {
        self.core.inside.log.reserve(entries)
    }

    /// For how many entries the log has room.
    pub fn room(&self) -> usize
        ensures { result ≡ self.now.state.room }
    {
        self.core.inside.log.capacity() - self.core.inside.log.len()
    }
}
