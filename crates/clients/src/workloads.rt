//! What the clients of a desk are to call.

ghost use Rattle.std.specs.Prelude.{◌≡◌, ◌<◌, ◌≤◌, ℕ, length, All, ◌+◌};
ghost use Rattle.clients.specs.Workloads.{calls_at, IsCall};
ghost use Rattle.desk_model.specs.Limits.{max_objects, max_clients, max_calls};

use model::{AnyOp, Kind};
use std::marker::Model;

/// The kind of each object; and the calls of each client, in order: the object's number, and the
/// operation.
#[derive(Drop)]
pub struct Workload {
    pub(crate) kinds: Vec<Kind>,
    pub(crate) calls: Vec<Vec<(u32, AnyOp)>>,
}

impl Model for Workload {
    ghost use Rattle.std.specs.Prelude.{map};
    ghost use Rattle.clients.specs.Workloads.{Work, IsWorkload};

    ghost Value = { Work };

    ghost view = { λ w.
        record { kinds = w.kinds.items; calls = map (λ v. v.items) w.calls.items } };

    ghost invariant = { λ w. IsWorkload
        (record { kinds = w.kinds.items; calls = map (λ v. v.items) w.calls.items }) };
}

impl Workload {
    /// The kind of each object.
    pub fn kinds(&self) -> &[Kind]
        ensures kinds { result.now ≡ self.now.kinds }
        ensures some { 0 < length self.now.kinds }
        ensures few { length self.now.kinds < 1 + max_objects }
    {
        &self.kinds
    }

    /// How many clients there are.
    pub fn clients(&self) -> u32
        ensures clients { result ≡ length self.now.calls }
        ensures some { 0 < result }
        ensures few { result < 1 + max_clients }
    {
        self.calls.len() as u32
    }

    /// The calls of a client, in order.
    pub fn calls(&self, client: u32) -> &[(u32, AnyOp)]
        requires { client < length self.now.calls }
        ensures calls { result.now ≡ calls_at self.now client }
        ensures fit { All (IsCall self.now.kinds) result.now }
        ensures few { length result.now < 1 + max_calls }
    {
        &self.calls[client as usize]
    }

    /// A number of calls that no client exceeds: the greatest.
    pub fn quota(&self) -> u32
        ensures enough { (c : ℕ) → c < length self.now.calls
            → length (calls_at self.now c) ≤ result }
        ensures few { result < 1 + max_calls }
    {
        let mut most = 0;
        for client in 0..self.clients() {
            most = most.max(self.calls(client).len() as u32);
        }
        most
    }
}
