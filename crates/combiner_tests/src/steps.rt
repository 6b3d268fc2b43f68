//! The steps of a client, each with what it is to find, and plays, which are lists of steps.

ghost use Rattle.std.specs.Prelude.{◌≡◌, ◌<◌, length, IfSome};

use crate::bench::{Bench, Closing, Setup};
use crate::lines::has_lines;
use crate::refusing::Refusing;
use crate::{abandoned, desks, listing, many_rows, refused, serving, waiting};
use combiner::{CallFault, Combined, call, combine, wait_for};
use publication::{Answer, Client, Desk, Enlist, Pass, Picked, Post, Win};
use seq_objects::{AnyOp, AnyReply};
use std::process::Abort;
use std::sync::Wait;
use std::test::Fail;

/// An answer, or that there is none yet.
pub(crate) type Got = Option<Answer<AnyReply>>;

pub(crate) const NIL: Got = Some(Answer::Reply(AnyReply::Value(None)));

pub(crate) const REFUSED: Got = Some(Answer::Refused);

pub(crate) const NOTHING: Got = None;

pub(crate) const fn value(v: i64) -> Got {
    Some(Answer::Reply(AnyReply::Value(Some(v))))
}

/// A step of a client. A step that names no object is on the one that the bench is told.
#[derive(Clone, Copy)]
pub(crate) enum Step {
    /// The client has this number of itself.
    IsNumber(u32),
    /// Posts a call on the object.
    Posts(u32, AnyOp),
    /// May not post the call.
    IsRefused(u32, AnyOp, Post),
    Enlists(Enlist),
    /// The pass has this number, and answers this many requests.
    Combines(u64, u64),
    /// The pass gets no memory for the log.
    LacksMemory,
    /// Makes the passes from the first to the last of these numbers. None answers a request.
    CombinesInVain(u64, u64),
    /// Wins the object and answers the requests of these rows.
    Serves(u32, &'static [u32]),
    /// Wins the object and finds no request for it in this row.
    FindsNone(u32, u32),
    Polls(Got),
    /// Polls, and the answer is this value.
    Gets(i64),
    /// Polls, and the answer is this value, or that the object refused the call.
    MayGet(i64),
    /// Makes a call.
    Calls(AnyOp, Got),
    /// Makes no call, since its quota is used.
    IsSpent(AnyOp),
    /// Has a call outstanding, or not.
    Waits(bool),
    /// Waits for the answer of the call that is outstanding.
    WaitsFor(Got),
    /// Wins the object and reserves more room than there can be, and then some, which is there.
    ReservesTooMuch,
    /// Wins the object, and holds it while this client combines, which finds it busy.
    HoldsAgainst(u64),
    /// Wins the object, serves row 0, whose client is this one, and before the answer that one
    /// retires.
    ServesAsItRetires(u64),
    /// Both have seen the log then.
    Meets(u64),
    /// This client retires, and leaves word with it.
    SeesOut(u64),
    Retires,
    /// Cannot close the desk, since this client has not retired.
    ClosesTooEarly(u32),
}

/// The number of a client, and a step of it.
pub(crate) type Turn = (u64, Step);

/// Answers the row's request, if there is one.
pub(crate) fn serve_row(
    desk: &Desk<Refusing>,
    pass: Pass<Refusing>,
    row: u32,
) -> (Pass<Refusing>, bool)
    requires desk { pass.desk ≡ desk.now.id }
    ensures { result.0.desk ≡ pass.desk }
{
    if row >= 32 {
        return (pass, false);
    }
    match pass.pick(desk, row) {
        Picked::Got(hand) if hand.possible() => (hand.answer(desk).0, true),
        Picked::Got(hand) => (hand.put_back(desk), false),
        Picked::Not(pass) => (pass, false),
    }
}

/// Answers the requests of these rows, and counts them.
fn serve_rows(desk: &Desk<Refusing>, pass: Pass<Refusing>, rows: &[u32]) -> (Pass<Refusing>, usize)
    requires desk { pass.desk ≡ desk.now.id }
    ensures { result.0.desk ≡ pass.desk }
{
    let mut pass = pass;
    let mut count: usize = 0;
    for row in rows {
        let (after, served) = serve_row(desk, pass, *row);
        pass = after;
        count = count.saturating_add(usize::from(served));
    }
    (pass, count)
}

/// Takes a step that needs no object. True if it found what it is to find, here as below.
fn takes(desk: &Desk<Refusing>, client: &mut Client<Refusing>, object: u32, step: Step) -> bool
    requires client { client.old.desk ≡ desk.now.id }
    requires object { object < length desk.now.id.kinds }
    ensures { client.new.desk ≡ client.old.desk }
{
    match step {
        Step::IsNumber(number) => client.number() == number,
        Step::Posts(object, op) => desk.post(client, object, op).is_ok(),
        Step::IsRefused(object, op, why) => desk.post(client, object, op).err() == Some(why),
        Step::Enlists(wanted) => desk.enlist(client, object) == wanted,
        Step::Polls(got) => desk.poll(client) == got,
        Step::Gets(v) => desk.poll(client) == value(v),
        Step::MayGet(v) => {
            let got = desk.poll(client);
            got == value(v) || got == REFUSED
        }
        Step::Waits(waits) => client.outstanding() == waits,
        _ => false,
    }
}

/// Takes a step with the object in its hands.
fn holds(desk: &Desk<Refusing>, pass: Pass<Refusing>, step: Step) -> (Pass<Refusing>, bool)
    requires { pass.desk ≡ desk.now.id }
    ensures { result.0.desk ≡ pass.desk }
{
    match step {
        Step::Serves(_, rows) => {
            let (pass, count) = serve_rows(desk, pass, rows);
            (pass, count == rows.len())
        }
        Step::FindsNone(_, row) => {
            let (pass, served) = serve_row(desk, pass, row);
            (pass, !served)
        }
        _ => {
            let mut pass = pass;
            let too_much = pass.reserve(usize::MAX).is_err();
            let some = pass.reserve(3).is_ok() && pass.room() >= 3;
            (pass, too_much && some)
        }
    }
}

/// Takes a step of one client.
fn alone<R: Wait>(
    rt: &R,
    desk: &Desk<Refusing>,
    client: Client<Refusing>,
    object: u32,
    step: Step,
) -> (Client<Refusing>, bool)
    requires client { client.desk ≡ desk.now.id }
    requires object { object < length desk.now.id.kinds }
    ensures { result.0.desk ≡ client.desk }
{
    match step {
        Step::Combines(pass, count) => {
            let (client, combined) = combine(desk, client, object);
            (client, combined == Combined::Served { pass, count })
        }
        Step::LacksMemory => {
            let (client, combined) = combine(desk, client, object);
            (client, combined == Combined::NoMemory)
        }
        Step::Calls(op, got) => {
            let (client, called) = call(rt, desk, client, object, op);
            (client, called.ok() == got)
        }
        Step::IsSpent(op) => {
            let (client, called) = call(rt, desk, client, object, op);
            (client, called == Err(CallFault::Post(Post::Spent)))
        }
        Step::WaitsFor(got) => {
            let (client, waited) = wait_for(rt, desk, client, object);
            (client, waited.ok() == got)
        }
        Step::Serves(..) | Step::FindsNone(..) | Step::ReservesTooMuch => {
            match desk.win(client, object) {
                Win::Held(client) => (client, false),
                Win::Won(pass) => {
                    let (pass, found) = holds(desk, pass, step);
                    (pass.release(desk), found)
                }
            }
        }
        _ => {
            let mut client = client;
            let found = takes(desk, &mut client, object, step);
            (client, found)
        }
    }
}

/// Holds the object while the other client combines, which finds it busy.
fn hold_against(
    desk: &Desk<Refusing>,
    client: Client<Refusing>,
    other: Client<Refusing>,
    object: u32,
) -> (Client<Refusing>, Client<Refusing>, bool)
    requires client { client.desk ≡ desk.now.id }
    requires other { other.desk ≡ desk.now.id }
    requires object { object < length desk.now.id.kinds }
    ensures client { result.0.desk ≡ client.desk }
    ensures other { result.1.desk ≡ other.desk }
{
    match desk.win(client, object) {
        Win::Held(client) => (client, other, false),
        Win::Won(pass) => {
            let (other, combined) = combine(desk, other, object);
            (pass.release(desk), other, combined == Combined::Busy)
        }
    }
}

/// Picks up the request of row 0, retires its client, and only then answers the request.
fn serve_late(
    desk: &Desk<Refusing>,
    client: Client<Refusing>,
    retiring: Client<Refusing>,
    object: u32,
) -> (Client<Refusing>, bool)
    requires client { client.desk ≡ desk.now.id }
    requires retiring { retiring.desk ≡ desk.now.id }
    requires object { object < length desk.now.id.kinds }
    ensures { result.0.desk ≡ client.desk }
{
    match desk.win(client, object) {
        Win::Held(client) => (client, false),
        Win::Won(pass) => match pass.pick(desk, 0) {
            Picked::Got(hand) => {
                let _ = desk.retire(retiring);
                if hand.possible() {
                    (hand.answer(desk).0.release(desk), true)
                } else {
                    (hand.put_back(desk).release(desk), false)
                }
            }
            Picked::Not(pass) => (pass.release(desk), false),
        },
    }
}

/// Takes a step of two clients. The other one comes back if it has not retired.
fn beside(
    desk: &Desk<Refusing>,
    client: Client<Refusing>,
    other: Client<Refusing>,
    object: u32,
    step: Step,
) -> (Client<Refusing>, Option<Client<Refusing>>, bool)
    requires client { client.desk ≡ desk.now.id }
    requires other { other.desk ≡ desk.now.id }
    requires object { object < length desk.now.id.kinds }
    ensures client { result.0.desk ≡ client.desk }
    ensures other { IfSome result.1 (λ c. c.desk ≡ other.desk) }
{
    match step {
        Step::HoldsAgainst(_) => {
            let (client, other, found) = hold_against(desk, client, other, object);
            (client, Some(other), found)
        }
        Step::ServesAsItRetires(_) => {
            let (client, found) = serve_late(desk, client, other, object);
            (client, None, found)
        }
        Step::Meets(_) => {
            let (client, other) = desk.meet(client, other, object);
            (client, Some(other), true)
        }
        _ => {
            let mut client = client;
            desk.tell(&mut client, desk.retire(other));
            (client, None, true)
        }
    }
}

impl Bench {
    /// The client and the other one take a step of two clients.
    fn pair(&mut self, object: u32, number: u64, other: u64, step: Step) -> bool {
        if object >= self.desk.objects() {
            return false;
        }
        let Some(second) = self.take(other) else {
            return false;
        };
        let Some(client) = self.take(number) else {
            self.seat(other, second);
            return false;
        };
        let (client, second, found) = beside(&self.desk, client, second, object, step);
        self.seat(number, client);
        if let Some(second) = second {
            self.seat(other, second);
        }
        found
    }

    /// Takes the step on this object. True if it found what it is to find.
    pub(crate) fn step_on<R: Wait>(&mut self, rt: &R, object: u32, turn: &Turn) -> bool {
        let (number, step) = *turn;
        match step {
            Step::HoldsAgainst(other)
            | Step::ServesAsItRetires(other)
            | Step::Meets(other)
            | Step::SeesOut(other) => return self.pair(object, number, other, step),
            Step::Retires => return self.retire(number),
            _ => {}
        }
        if object >= self.desk.objects() {
            return false;
        }
        let Some(client) = self.take(number) else {
            return false;
        };
        let (client, found) = alone(rt, &self.desk, client, object, step);
        self.seat(number, client);
        found
    }

    pub(crate) fn retire(&mut self, number: u64) -> bool {
        match self.take(number) {
            None => false,
            Some(client) => {
                let _ = self.desk.retire(client);
                true
            }
        }
    }

    /// Takes the step on its object, or on object 0. True if it found what it is to find.
    pub(crate) fn step<R: Wait>(&mut self, rt: &R, turn: &Turn) -> bool {
        match turn.1 {
            Step::Serves(object, _) | Step::FindsNone(object, _) => self.step_on(rt, object, turn),
            Step::CombinesInVain(first, last) => self.combine_in_vain(rt, turn.0, first, last),
            _ => self.step_on(rt, 0, turn),
        }
    }

    /// Takes the step. None if it did not find what it is to find.
    fn turn<R: Wait>(mut self, rt: &R, turn: &Turn) -> Option<Bench> {
        if let Step::ClosesTooEarly(wanted) = turn.1 {
            return match self.close(turn.0) {
                Closing::Unretired(bench, client) if client == wanted => Some(bench),
                _ => None,
            };
        }
        if self.step(rt, turn) {
            Some(self)
        } else {
            None
        }
    }

    fn combine_in_vain<R: Wait>(&mut self, rt: &R, number: u64, first: u64, last: u64) -> bool {
        for pass in first..last.saturating_add(1) {
            if !self.step_on(rt, 0, &(number, Step::Combines(pass, 0))) {
                return false;
            }
        }
        true
    }
}

/// Takes the steps, each of which finds what it is to find.
pub(crate) fn take_turns<R: Wait + Abort>(
    rt: &R,
    bench: Bench,
    turns: &[Turn],
    name: &str,
) -> Bench {
    let mut bench = bench;
    for (k, turn) in turns.iter().enumerate() {
        match bench.turn(rt, turn) {
            Some(after) => bench = after,
            None => panic!(rt; "{name}: step {k}"),
        }
    }
    bench
}

/// A list of steps on a new desk, and its result.
pub(crate) struct Play {
    pub(crate) name: &'static str,
    pub(crate) setup: Setup,
    pub(crate) turns: &'static [Turn],
    /// The client that closes the desk at the end, and the lines of the record's history,
    /// certificates and verdict.
    pub(crate) end: Option<(u64, &'static str)>,
}

/// Plays each, and looks whether it goes as it says.
fn check_plays<R: AllocGlobal + Wait + Abort>(rt: &R, plays: &[Play]) -> Result<(), Fail> {
    for it in plays {
        let bench = Bench::new(rt.alloc(), &it.setup)?;
        assert!(rt; bench.desk.clients() == it.setup.clients);
        assert!(rt; bench.desk.objects() as usize == it.setup.kinds.len());
        let bench = take_turns(rt, bench, it.turns, it.name);
        if let Some((number, lines)) = it.end {
            let closing = bench.close(number);
            assert!(rt; has_lines(rt.alloc(), &closing, lines), "{}", it.name);
        }
    }
    Ok(())
}

#[test]
fn each_play_goes_as_it_says(rt: HostRuntime) -> Result<(), Fail> {
    check_plays(&rt, &abandoned::PLAYS)?;
    check_plays(&rt, &waiting::PLAYS)?;
    check_plays(&rt, &desks::PLAYS)?;
    check_plays(&rt, &listing::PLAYS)?;
    check_plays(&rt, &many_rows::PLAYS)?;
    check_plays(&rt, &refused::PLAYS)?;
    check_plays(&rt, &serving::PLAYS)
}
