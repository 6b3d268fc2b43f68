//! What is drawn for one call.

ghost use Rattle.std.specs.Prelude.{◌≡◌, ◌<◌};
ghost use Rattle.model.specs.Objects.{kind_of};
ghost use Rattle.clients.specs.Drawing.{number_below, draws_from, op_for, stream_at};

use crate::kinds::{Operations, operations_of};
use model::{AnyOp, Kind};
use rand::RngExt;
use rand_pcg::Lcg64Xsh32;

/// The numbers that make one call.
#[derive(Clone, Copy)]
pub(crate) struct Draws {
    pub object: u32,
    pub choice: u32,
    pub first: u32,
    pub second: u32,
}

fn below(generator: &mut Lcg64Xsh32, n: u32) -> u32
    requires { 0 < n }
    ensures within { result < n }
    ensures drawn { (result, stream_at generator.new) ≡ number_below n (stream_at generator.old) }
{
    generator.random_range(0..n)
}

/// Draws the numbers of one call on one of this many objects.
pub(crate) fn draw(generator: &mut Lcg64Xsh32, objects: u32) -> Draws
    requires { 0 < objects }
    ensures within { result.object < objects }
    ensures drawn { (result, stream_at generator.new)
        ≡ draws_from objects (stream_at generator.old) }
{
    let object = below(generator, objects);
    let choice = below(generator, 6);
    let first = below(generator, 100);
    let second = below(generator, 100);
    Draws {
        object,
        choice,
        first,
        second,
    }
}

/// The operation that the numbers make on an object of this kind.
pub(crate) fn operation(kind: Kind, draws: Draws) -> AnyOp
    ensures op { result ≡ op_for kind draws }
    ensures kind { kind_of result ≡ kind }
{
    let (first, second) = (i64::from(draws.first), i64::from(draws.second));
    match operations_of(kind, first, second) {
        Operations::Either(a, _) | Operations::InTurn(a, _) if draws.choice % 2 == 0 => a,
        Operations::Either(_, b) | Operations::InTurn(_, b) => b,
        Operations::AnyOfThree(a, b, c) => match draws.choice % 3 {
            0 => a,
            1 => b,
            _ => c,
        },
    }
}
