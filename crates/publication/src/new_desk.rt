//! A new desk, and its clients.

ghost use Rattle.std.specs.Prelude.{◌≡◌, ◌+◌, ◌<◌, ◌≤◌, [], length, map, All, IfOk, vec_len};
ghost use Rattle.std.specs.Prelude.{vec_capacity};
ghost use Rattle.model.specs.Objects.{empty, kind_with};
ghost use Rattle.desk_invariant.specs.Views.{maker_of, table_words, table_slots};
ghost use Rattle.publication.specs.Handles.{AreAllNew, IsRoom, new_client_known, fresh_places};
ghost use Rattle.publication.specs.Making.{AreCores, IsLaid, AreEmpty, kinds_with, HasRoom};
ghost use Rattle.publication.specs.Making.{IsSmall, AreDealt, rosters_of, AreWalkersOf, IsFresh};
ghost use Rattle.desk_model.specs.Limits.{max_objects, max_clients, max_calls};

use crate::client::{BoxedMember, Client, Member, Place, Places};
use crate::desk::{Desk, DeskTable, FIRST_ROW};
use crate::plays::{Begins, Makes};
use atomic_table::Table;
use desk_invariant::{BoxedCore, Core, Journal, Plan, Slot};
use model::Kind;
use publication_list::{Roster, SharedPlace, SharedRoster, SharedWalker};
use seq_objects::SeqObject;
use std::alloc::{AllocError, Global};

/// How many objects there may be.
const OBJECTS: usize = 16;

/// How many slots the table has.
pub(crate) const SLOTS: usize = 80;

/// How many words the table has.
const WORDS: usize = 81;

/// The kind of each object.
fn kinds_of<S: SeqObject>(alloc: Global, objects: &[S]) -> Result<Vec<Kind>, AllocError>
    ensures { IfOk result (λ v. v.items ≡ kinds_with S.content objects.now) }
{
    let mut kinds = Vec::with_capacity(alloc, objects.len())?;
    for object in objects {
        kinds.push_reserved(object.kind());
    }
    Ok(kinds)
}

/// An empty list of places for each client, with room for one place for each object.
fn no_places(alloc: Global, clients: u32) -> Result<Vec<Vec<SharedPlace>>, AllocError>
    ensures { IfOk result (λ v. AreDealt 0 clients [] v.items) }
{
    let mut owners = Vec::with_capacity(alloc, clients as usize)?;
    for _ in 0..clients {
        owners.push_reserved(Vec::with_capacity(alloc, OBJECTS)?);
    }
    Ok(owners)
}

/// The publication lists, by the number of the object, and the walker of each.
struct NewLists {
    rosters: Vec<SharedRoster>,
    walkers: Vec<SharedWalker>,
}

/// A publication list for each object that there may be, in which each client has a place.
fn lists(alloc: Global, owners: &mut Vec<Vec<SharedPlace>>) -> Result<NewLists, AllocError>
    requires few { (0 < length owners.old.items) × (length owners.old.items < 1 + max_clients) }
    requires owners { AreDealt 0 (length owners.old.items) [] owners.old.items }
    ensures lists { IfOk result (λ l. (vec_len l.rosters ≡ max_objects)
        × AreWalkersOf l.rosters.items l.walkers.items) }
    ensures owners { IfOk result (λ l.
        AreDealt 0 (length owners.old.items) l.rosters.items owners.new.items) }
{
    let mut rosters = Vec::with_capacity(alloc, OBJECTS)?;
    let mut walkers = Vec::with_capacity(alloc, OBJECTS)?;
    while rosters.len() < OBJECTS {
        let (roster, walker) = Roster::new_with_places(alloc, owners)?;
        rosters.push_reserved(roster);
        walkers.push_reserved(walker);
    }
    Ok(NewLists { rosters, walkers })
}

/// A slot for each object, with an empty log, and its publication list.
fn cores<S: SeqObject>(
    alloc: Global,
    objects: Vec<S>,
    mut lists: Vec<SharedWalker>,
) -> Result<Vec<Slot<S, S::Op, S::Reply>>, AllocError>
    requires { (length objects.items < 1 + max_objects) × (vec_len lists ≡ max_objects) }
    ensures { IfOk result (λ v. (vec_len v ≡ length objects.items) × (vec_capacity v ≡ table_slots)
        × AreCores objects.items (rosters_of lists.items) v.items) }
{
    let mut slots = Vec::with_capacity(alloc, SLOTS)?;
    for object in objects {
        let log = Vec::new(alloc);
        let core = Core {
            object,
            log,
            passes: 0,
            list: lists.remove(0),
            ages: [0; 32],
        };
        let inside = Box::new(alloc, core)?;
        slots.push_reserved(Slot::Core(BoxedCore { inside }));
    }
    Ok(slots)
}

/// All slots of the table: the cores of the objects, and then empty ones.
fn all_slots<S: SeqObject>(
    alloc: Global,
    objects: Vec<S>,
    lists: Vec<SharedWalker>,
) -> Result<Vec<Slot<S, S::Op, S::Reply>>, AllocError>
    requires { (length objects.items < 1 + max_objects) × (vec_len lists ≡ max_objects) }
    ensures { IfOk result (λ v. IsLaid objects.items (rosters_of lists.items) v.items) }
{
    let mut slots = cores(alloc, objects, lists)?;
    while slots.len() < SLOTS {
        slots.push_reserved(Slot::Nothing);
    }
    Ok(slots)
}

type TableAndMaker<S, O, R> = (DeskTable<S, O, R>, Place<S, O, R>);

/// A new table, and the seat that makes the clients.
fn new_table<S: SeqObject>(
    alloc: Global,
    objects: Vec<S>,
    lists: Vec<SharedWalker>,
    plan: &Plan,
) -> Result<TableAndMaker<S, S::Op, S::Reply>, AllocError>
    requires objects { AreEmpty S.content objects.items }
    requires lists { (vec_len lists ≡ max_objects) × AreWalkersOf plan.now.lists.items lists.items }
    requires plan { (plan.now.kinds.items ≡ kinds_with S.content objects.items) × IsSmall plan.now }
    ensures { IfOk result (λ r. (r.1.table_id ≡ r.0.shared.table_id)
        × (r.0.shared.table_id.words ≡ table_words)
        × (r.0.shared.table_id.slots ≡ table_slots) × (r.0.shared.key ≡ plan.now)
        × (r.1.me ≡ (maker_of plan.now.kinds.items plan.now.lists.items 0, []))) }
{
    let slots = all_slots(alloc, objects, lists)?;
    let words = [0; WORDS];
    match Table::new(alloc, &words, slots, plan) {
        Ok(opened) => Ok(opened),
        Err(_) => Err(AllocError),
    }
}

/// A journal for each client.
fn journals<O: Drop, R: Drop>(
    alloc: Global,
    clients: u32,
    quota: u32,
) -> Result<Vec<Journal<O, R>>, AllocError>
    requires { quota < 1 + max_calls }
    ensures { IfOk result (λ v. (vec_len v ≡ clients) × All (HasRoom quota) v.items) }
{
    let mut journals = Vec::with_capacity(alloc, clients as usize)?;
    for _ in 0..clients {
        let events = Vec::with_capacity(alloc, 2 * quota as usize)?;
        journals.push_reserved(Journal { events });
    }
    Ok(journals)
}

/// What a client itself has before its first call.
fn new_member<O: Drop, R: Drop>(
    alloc: Global,
    journal: Journal<O, R>,
    places: Places,
    quota: u32,
) -> Result<BoxedMember<O, R>, AllocError>
    ensures { IfOk result (λ m. IsFresh quota m.calls m.quota m.outstanding
        × (m.journal ≡ journal) × (m.places ≡ places)) }
{
    let member = Member {
        calls: 0,
        quota,
        outstanding: false,
        journal,
        places,
    };
    let inside = Box::new(alloc, member)?;
    Ok(BoxedMember { inside })
}

/// Makes the client with this number.
fn new_client<S: SeqObject>(
    table: &DeskTable<S, S::Op, S::Reply>,
    maker: &mut Place<S, S::Op, S::Reply>,
    member: BoxedMember<S::Op, S::Reply>,
    number: u32,
    quota: u32,
) -> Client<S>
    requires table { (maker.old.table_id ≡ table.now.shared.table_id)
        × (table.now.shared.table_id.words ≡ table_words) }
    requires plan { IsSmall table.now.shared.key × (number < table.now.shared.key.clients)
        × (quota ≡ table.now.shared.key.quota) }
    requires maker { maker.old.me
        ≡ (maker_of table.now.shared.key.kinds.items table.now.shared.key.lists.items number, []) }
    requires fresh { IsFresh quota member.calls member.quota member.outstanding }
    requires journal { HasRoom quota member.journal }
    requires places { (member.places ≡ fresh_places number table.now.shared.key.lists.items)
        × (length table.now.shared.key.lists.items ≡ max_objects) }
    ensures maker { (maker.new.table_id ≡ maker.old.table_id)
        × (maker.new.me ≡ (
          maker_of table.now.shared.key.kinds.items table.now.shared.key.lists.items
              (number + 1),
          [],
        )) }
    ensures client { result
        ≡ new_client_known (record {
          table = table.now.shared.table_id;
          quota = quota;
          kinds = table.now.shared.key.kinds.items;
          lists = table.now.shared.key.lists.items;
        }) number }
{
    let shared = &table.shared;
    let mut seat = shared.split_seat::<Makes>(maker);
    shared.load::<Begins>(&mut seat, FIRST_ROW + number as usize);
    Client {
        seat,
        number,
        member,
    }
}

/// Makes the clients, each with a journal and its places.
fn make_all<S: SeqObject>(
    alloc: Global,
    table: &DeskTable<S, S::Op, S::Reply>,
    mut maker: Place<S, S::Op, S::Reply>,
    mut journals: Vec<Journal<S::Op, S::Reply>>,
    mut owners: Vec<Vec<SharedPlace>>,
    made: &mut Vec<Client<S>>,
    quota: u32,
) -> Result<(), AllocError>
    requires table { (maker.table_id ≡ table.now.shared.table_id)
        × (table.now.shared.table_id.words ≡ table_words) }
    requires plan { IsSmall table.now.shared.key × (quota ≡ table.now.shared.key.quota) }
    requires maker { maker.me
        ≡ (maker_of table.now.shared.key.kinds.items table.now.shared.key.lists.items 0, []) }
    requires journals { (vec_len journals ≡ table.now.shared.key.clients)
        × All (HasRoom quota) journals.items }
    requires owners { AreDealt 0 table.now.shared.key.clients table.now.shared.key.lists.items
        owners.items
        × (length table.now.shared.key.lists.items ≡ max_objects) }
    requires made { IsRoom table.now.shared.key.clients made.old × (vec_len made.old ≡ 0) }
    ensures { IfOk result (λ _. (length made.new.items ≡ table.now.shared.key.clients)
        × AreAllNew (record {
          table = table.now.shared.table_id;
          quota = quota;
          kinds = table.now.shared.key.kinds.items;
          lists = table.now.shared.key.lists.items;
        }) made.new.items) }
{
    let mut number = 0;
    while let Some(journal) = journals.pop() {
        let places = Places {
            all: owners.remove(0),
        };
        let member = new_member(alloc, journal, places, quota)?;
        made.push_reserved(new_client(table, &mut maker, member, number, quota));
        number += 1;
    }
    Ok(())
}

impl<S: SeqObject> Desk<S> {
    /// Makes a desk for these empty objects, and its clients, each of which may make this many
    /// calls. It makes room for the journals and the record. Logs and objects grow as calls are
    /// answered, and there allocations may fail. There are 1 to 16 objects and 1 to 32 clients, of
    /// at most 10,000 calls each. The clients come in the order of their numbers, and no row is in
    /// any list.
    pub fn new(
        alloc: Global,
        objects: Vec<S>,
        clients: u32,
        quota: u32,
    ) -> Result<(Desk<S>, Vec<Client<S>>), AllocError>
        requires objects { (0 < length objects.items) × (length objects.items < 1 + max_objects)
            × All (λ o. S.content o ≡ empty (kind_with (S.content o))) objects.items }
        requires clients { (0 < clients) × (clients < 1 + max_clients) }
        requires quota { quota < 1 + max_calls }
        ensures desk { IfOk result (λ r.
            (r.0.id.kinds ≡ map (λ o. kind_with (S.content o)) objects.items)
            × (r.0.clients ≡ clients) × (r.0.id.quota ≡ quota)) }
        ensures clients { IfOk result (λ r. (length r.1.items ≡ clients)
            × AreAllNew r.0.id r.1.items) }
    {
        let kinds = kinds_of(alloc, &objects)?;
        let room = journals(alloc, clients, quota)?;
        let mut made = Vec::with_capacity(alloc, clients as usize)?;
        let journals = Vec::with_capacity(alloc, clients as usize)?;
        let logs = Vec::with_capacity(alloc, objects.len())?;
        let mut owners = no_places(alloc, clients)?;
        let NewLists { rosters, walkers } = lists(alloc, &mut owners)?;
        let plan = Plan {
            kinds,
            lists: rosters,
            clients,
            quota,
        };
        let (table, maker) = new_table(alloc, objects, walkers, &plan)?;
        make_all(alloc, &table, maker, room, owners, &mut made, quota)?;
        let Plan { kinds, lists, .. } = plan;
        let desk = Desk {
            table,
            kinds,
            lists,
            clients,
            quota,
            journals,
            logs,
        };
        Ok((desk, made))
    }
}
