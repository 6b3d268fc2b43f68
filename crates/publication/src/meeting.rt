//! Two clients meet.

ghost use Rattle.std.specs.Prelude.{◌≡◌, ◌<◌, length};
ghost use Rattle.publication.specs.Calls.{HaveBothMet};

use crate::client::Client;
use crate::desk::Desk;
use crate::plays::{Adopts, Learns, SendsSeen, TakesMessage};
use seq_objects::SeqObject;

impl<S: SeqObject> Desk<S> {
    /// Lets two clients share what they have seen of the object's log: afterwards both have seen
    /// one legal log, which extends what each had seen.
    pub fn meet(&self, one: Client<S>, other: Client<S>, object: u32) -> (Client<S>, Client<S>)
        requires one { one.desk ≡ self.now.id }
        requires other { other.desk ≡ self.now.id }
        requires object { object < length self.now.id.kinds }
        ensures desk { (result.0.desk ≡ one.desk) × (result.1.desk ≡ other.desk) }
        ensures places { (result.0.places ≡ one.places) × (result.1.places ≡ other.places) }
        ensures met { HaveBothMet object one other result.0 result.1 }
    {
        let Client {
            seat: mut first,
            number: first_number,
            member: first_member,
        } = one;
        let Client {
            seat: mut second,
            number: second_number,
            member: second_member,
        } = other;
        let shared = &self.table.shared;
        let word = object as usize;
        let message = shared.split_seat::<SendsSeen>(&mut second);
        shared.join_seat::<TakesMessage>(&mut first, message);
        shared.load::<Learns>(&mut first, word);
        let message = shared.split_seat::<SendsSeen>(&mut first);
        shared.join_seat::<TakesMessage>(&mut second, message);
        shared.load::<Adopts>(&mut second, word);
        (
            Client {
                seat: first,
                number: first_number,
                member: first_member,
            },
            Client {
                seat: second,
                number: second_number,
                member: second_member,
            },
        )
    }
}
