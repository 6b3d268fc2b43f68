//! A desk with its clients in their seats, so that a test names a client by its number.

ghost use Rattle.std.specs.Prelude.{◌≡◌, ◌+◌, ◌<◌, length, IfOk, IfSome};
ghost use Rattle.publication.specs.Handles.{AreAllNew};
ghost use Rattle.publication.specs.Making.{AreEmpty};
ghost use Rattle.combiner_tests.specs.Seats.{AreSeated};
ghost use Rattle.model.specs.Objects.{empty, kind_with};
ghost use Rattle.seq_objects.specs.AnyContent.{content_of};

use crate::refusing::Refusing;
use number_map::NumberMap;
use publication::{Client, Desk, Record, Unretired};
use seq_objects::{AnyObject, Kind, SeqObject};
use std::alloc::{AllocError, Global};
use std::marker::Model;
use std::test::Fail;

/// A desk, and those of its clients that are not at work.
#[derive(Drop)]
pub(crate) struct Bench {
    pub(crate) desk: Desk<Refusing>,
    pub(crate) seats: NumberMap<Client<Refusing>>,
}

/// What a desk begins with.
#[derive(Clone, Copy)]
pub(crate) struct Setup {
    /// The kind of each object.
    pub(crate) kinds: &'static [Kind],
    /// Each object refuses the call after this many others, or none.
    pub(crate) left: Option<u32>,
    pub(crate) clients: u32,
    /// How many calls each client may make.
    pub(crate) quota: u32,
}

/// The result of closing a desk.
#[derive(Drop)]
pub(crate) enum Closing {
    Closed(Record<Refusing>),
    /// The client with this number has not retired. The bench is as it was.
    Unretired(Bench, u32),
    /// There is no such client.
    NoClient,
}

impl Model for Bench {
    ghost use Rattle.publication.specs.Handles.{DeskId};
    ghost use Rattle.combiner_tests.specs.Seats.{AreSeated};

    ghost Value = { DeskId };

    ghost view = { λ b. b.desk.id };

    ghost invariant = { λ b. AreSeated b.desk.id b.seats };
}

/// An empty object of this kind, which refuses the call after `left` others, or none.
fn object_of(alloc: Global, kind: Kind, left: Option<u32>) -> Refusing
    ensures { content_of result.inside ≡ empty (kind_with (content_of result.inside)) }
{
    Refusing {
        inside: AnyObject::empty(alloc, kind),
        left,
    }
}

/// Empty objects of these kinds. Each refuses the call after `left` others, or none.
fn objects_of(alloc: Global, kinds: &[Kind], left: Option<u32>) -> Result<Vec<Refusing>, AllocError>
    ensures { IfOk result (λ v. AreEmpty ⟦<Refusing as SeqObject>⟧.content v.items) }
{
    let mut objects = Vec::new(alloc);
    for kind in kinds {
        objects.push(object_of(alloc, *kind, left))?;
    }
    Ok(objects)
}

/// The last of the clients.
fn next(desk: &Desk<Refusing>, clients: &mut Vec<Client<Refusing>>) -> Client<Refusing>
    requires { (0 < length clients.old.items) × AreAllNew desk.now.id clients.old.items }
    ensures client { result.desk ≡ desk.now.id }
    ensures others { (length clients.new.items + 1 ≡ length clients.old.items)
        × AreAllNew desk.now.id clients.new.items }
{
    match clients.pop() {
        Some(client) => client,
        None => unreachable!(),
    }
}

/// The clients, each in the seat of its place in the list.
fn seated(
    alloc: Global,
    desk: &Desk<Refusing>,
    mut clients: Vec<Client<Refusing>>,
) -> Result<NumberMap<Client<Refusing>>, AllocError>
    requires { AreAllNew desk.now.id clients.items }
    ensures { IfOk result (AreSeated desk.now.id) }
{
    let mut seats = NumberMap::new(alloc);
    'seating: while !clients.is_empty() {
        let client = next(desk, &mut clients);
        seats.insert(clients.len() as u64, client)?;
    }
    Ok(seats)
}

impl Bench {
    pub(crate) fn new(alloc: Global, setup: &Setup) -> Result<Bench, Fail> {
        let objects = objects_of(alloc, setup.kinds, setup.left)?;
        let Setup { clients, quota, .. } = *setup;
        let is_few = clients <= 32 && quota <= 10_000 && objects.len() <= 16;
        if !is_few || clients == 0 || objects.is_empty() {
            return Err(Fail::new("there is no such desk"));
        }
        let (desk, clients) = Desk::new(alloc, objects, clients, quota)?;
        let seats = seated(alloc, &desk, clients)?;
        Ok(Bench { desk, seats })
    }

    /// The client with this number leaves its seat.
    pub(crate) fn take(&mut self, number: u64) -> Option<Client<Refusing>>
        ensures same { self.new ≡ self.old }
        ensures client { IfSome result (λ c. c.desk ≡ self.old) }
    {
        self.seats.remove(number)
    }

    /// The client takes the seat with this number, which it left. So no memory is needed.
    pub(crate) fn seat(&mut self, number: u64, client: Client<Refusing>)
        requires { client.desk ≡ self.old }
        ensures { self.new ≡ self.old }
    {
        let _ = self.seats.insert(number, client);
    }

    /// Closes the desk by the client with this number.
    pub(crate) fn close(mut self, number: u64) -> Closing {
        let Some(last) = self.take(number) else {
            return Closing::NoClient;
        };
        let Bench { desk, seats } = self;
        match desk.close(last) {
            Ok(record) => Closing::Closed(record),
            Err(Unretired { desk, last, client }) => {
                let mut bench = Bench { desk, seats };
                bench.seat(number, last);
                Closing::Unretired(bench, client)
            }
        }
    }
}
