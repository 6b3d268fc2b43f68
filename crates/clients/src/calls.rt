//! The calls of one client.

ghost use Rattle.std.specs.Prelude.{◌≡◌, ◌<◌, ◌≤◌, ◌*◌, length, All, IfOk, IfSome};
ghost use Rattle.seq_objects.specs.Kinds.{kinds_of};
ghost use Rattle.model.specs.Objects.{kind_of};
ghost use Rattle.clients.specs.Drawing.{drawn_calls, pairs_from, client_calls, stream_at};
ghost use Rattle.clients.specs.Drawing as spec;
ghost use Rattle.clients.specs.Workloads.{IsCall};

use crate::call_numbers::{draw, operation};
use crate::kinds::{Operations, operations_of};
use model::AnyOp;
use rand_pcg::Lcg64Xsh32;
use seq_objects::Kinds;
use std::alloc::{AllocError, Global};

/// This many calls, each drawn.
fn draw_calls(
    alloc: Global,
    kinds: Kinds,
    objects: u32,
    count: u32,
    generator: &mut Lcg64Xsh32,
) -> Result<Vec<(u32, AnyOp)>, AllocError>
    requires { 0 < objects }
    ensures calls { IfOk result (λ v. v.items
        ≡ drawn_calls kinds objects count (stream_at generator.old)) }
    ensures count { IfOk result (λ v. length v.items ≡ count) }
    ensures fit { IfOk result (λ v. All (IsCall (kinds_of kinds objects)) v.items) }
{
    let mut calls = Vec::with_capacity(alloc, count as usize)?;
    for _ in 0..count {
        let draws = draw(generator, objects);
        calls.push((draws.object, operation(kinds.kind(draws.object), draws)))?;
    }
    Ok(calls)
}

/// This many pairs of calls on objects of one kind. Each pair takes an object that was drawn, and
/// frees it. Both calls draw four numbers, so that the stream goes on as for other kinds.
fn draw_pairs(
    alloc: Global,
    take: AnyOp,
    free: AnyOp,
    objects: u32,
    count: u32,
    generator: &mut Lcg64Xsh32,
) -> Result<Vec<(u32, AnyOp)>, AllocError>
    requires some { 0 < objects }
    requires kind { kind_of free ≡ kind_of take }
    ensures calls { IfOk result (λ v. v.items
        ≡ pairs_from take free objects count (stream_at generator.old)) }
    ensures count { IfOk result (λ v. length v.items ≡ count * 2) }
    ensures fit { IfOk result (λ v. All (IsCall (kinds_of (Kinds.One (kind_of take)) objects))
        v.items) }
{
    let mut calls = Vec::with_capacity(alloc, count as usize * 2)?;
    for _ in 0..count {
        let draws = draw(generator, objects);
        draw(generator, objects);
        calls.push((draws.object, take))?;
        calls.push((draws.object, free))?;
    }
    Ok(calls)
}

/// The operations that the client calls in pairs, if all objects are of a kind that has a pair.
fn pair_for(kinds: Kinds, client: u32) -> Option<(AnyOp, AnyOp)>
    ensures pair { result ≡ spec.pair_for kinds client }
    ensures kind { IfSome result (λ pair. (kinds ≡ Kinds.One (kind_of pair.0))
        × (kind_of pair.1 ≡ kind_of pair.0)) }
{
    let Kinds::One(kind) = kinds else {
        return None;
    };
    let owner = i64::from(client);
    match operations_of(kind, owner, owner) {
        Operations::InTurn(take, free) => Some((take, free)),
        Operations::Either(_, _) | Operations::AnyOfThree(_, _, _) => None,
    }
}

/// The calls of one client.
pub(crate) fn calls_of(
    alloc: Global,
    kinds: Kinds,
    objects: u32,
    count: u32,
    seed: u64,
    client: u32,
) -> Result<Vec<(u32, AnyOp)>, AllocError>
    requires { 0 < objects }
    ensures calls { IfOk result (λ v. v.items ≡ client_calls kinds objects count seed client) }
    ensures few { IfOk result (λ v. length v.items ≤ count) }
    ensures fit { IfOk result (λ v. All (IsCall (kinds_of kinds objects)) v.items) }
{
    let mut generator = Lcg64Xsh32::new(seed, u64::from(client));
    match pair_for(kinds, client) {
        Some((take, free)) => draw_pairs(alloc, take, free, objects, count / 2, &mut generator),
        None => draw_calls(alloc, kinds, objects, count, &mut generator),
    }
}
