//! A publication list: rows that come and go, and two threads.

ghost use Rattle.std.specs.Prelude.{◌≡◌, IfOk};

use publication_list::{Enlist, Place, Roster, Walker};
use std::alloc::{AllocError, Global};
use std::process::Abort;
use std::test::Fail;
use std::thread::join;

struct Three {
    roster: Roster,
    zero: Place,
    one: Place,
    two: Place,
    walker: Walker,
}

fn for_three(alloc: Global) -> Result<Three, AllocError>
    ensures { IfOk result (λ t. (t.zero.roster ≡ t.roster.id) × (t.one.roster ≡ t.roster.id)
        × (t.two.roster ≡ t.roster.id) × (t.walker.roster ≡ t.roster.id)) }
{
    let (roster, mut places, walker) = Roster::new(alloc, 3)?;
    let Some(two) = places.pop() else {
        unreachable!()
    };
    let Some(one) = places.pop() else {
        unreachable!()
    };
    let Some(zero) = places.pop() else {
        unreachable!()
    };
    Ok(Three {
        roster,
        zero,
        one,
        two,
        walker,
    })
}

fn meets<R: Abort>(rt: &R, roster: &Roster, walker: &mut Walker, rows: &[u32])
    requires { walker.old.roster ≡ roster.now.id }
    ensures { walker.new.roster ≡ walker.old.roster }
{
    roster.walk(walker);
    assert!(rt; walker.rows() == rows);
}

/// An `enlist` that lists nothing fails here, and so does a walk that meets no newcomer.
#[test]
fn row_that_was_unlinked_enlists_again(rt: HostRuntime) -> Result<(), Fail> {
    let Three {
        roster,
        mut zero,
        mut one,
        mut two,
        mut walker,
    } = for_three(rt.alloc())?;
    meets(&rt, &roster, &mut walker, &[]);
    assert_eq!(rt; roster.enlist(&mut zero), Enlist::Listed);
    assert_eq!(rt; roster.enlist(&mut one), Enlist::Listed);
    assert_eq!(rt; roster.enlist(&mut two), Enlist::Listed);
    meets(&rt, &roster, &mut walker, &[2, 1, 0]);
    if walker.rows().len() > 1 {
        roster.unlink(&mut walker, 1);
    }
    assert!(rt; walker.rows() == [2, 0].as_slice());
    meets(&rt, &roster, &mut walker, &[2, 0]);
    assert_eq!(rt; roster.enlist(&mut one), Enlist::Listed);
    meets(&rt, &roster, &mut walker, &[1, 2, 0]);
    assert_eq!(rt; roster.enlist(&mut one), Enlist::Already);
    Ok(())
}

fn try_often(roster: &Roster, place: &mut Place) -> bool
    requires { place.old.roster ≡ roster.now.id }
    ensures { place.new.roster ≡ place.old.roster }
{
    for _ in 0..1_000_000 {
        if roster.enlist(place) == Enlist::Listed {
            return true;
        }
    }
    false
}

fn clean_often(roster: &Roster, walker: &mut Walker)
    requires { walker.old.roster ≡ roster.now.id }
    ensures { walker.new.roster ≡ walker.old.roster }
{
    for _ in 0..1_000 {
        roster.walk(walker);
        if walker.rows().len() > 1 {
            roster.unlink(walker, 1);
        }
    }
}

fn enlisted(roster: &Roster, mut place: Place) -> (Place, bool)
    requires { place.roster ≡ roster.now.id }
    ensures { result.0.roster ≡ place.roster }
{
    let listed = try_often(roster, &mut place);
    (place, listed)
}

fn cleaned(roster: &Roster, mut walker: Walker) -> Walker
    requires { walker.roster ≡ roster.now.id }
    ensures { result.roster ≡ walker.roster }
{
    clean_often(roster, &mut walker);
    walker
}

#[test]
fn rows_enlist_while_another_thread_cleans(rt: HostRuntime) -> Result<(), Fail> {
    let Three {
        roster,
        zero,
        one,
        mut two,
        mut walker,
    } = for_three(rt.alloc())?;
    assert_eq!(rt; roster.enlist(&mut two), Enlist::Listed);
    roster.walk(&mut walker);
    let (roster, handle) = (&roster, &rt);
    let ((zero, one), mut walker) = join(
        handle,
        || -> ((Place, bool), (Place, bool))
            requires { (zero.roster ≡ roster.now.id) × (one.roster ≡ roster.now.id) }
            ensures { (result.0.0.roster ≡ roster.entry.now.id)
                × (result.1.0.roster ≡ roster.entry.now.id) }
        { (enlisted(roster, zero), enlisted(roster, one)) },
        || -> Walker
            requires { walker.roster ≡ roster.now.id }
            ensures { result.roster ≡ roster.entry.now.id }
        { cleaned(roster, walker) },
    );
    let ((mut zero, first), (mut one, second)) = (zero, one);
    assert!(rt; first && second);
    assert!(rt; roster.enlist(&mut zero) != Enlist::Missed);
    assert!(rt; roster.enlist(&mut one) != Enlist::Missed);
    // The other thread may have taken row 2 out.
    assert!(rt; roster.enlist(&mut two) != Enlist::Missed);
    roster.walk(&mut walker);
    let rows = walker.rows();
    assert!(rt; rows.len() == 3 && rows.contains(&0) && rows.contains(&1) && rows.contains(&2));
    Ok(())
}
