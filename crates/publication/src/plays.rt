//! What each step on the table tells the client that takes it.

use atomic_table::{Join, Play, Split};
use desk_invariant::{DeskView, Slot};
use seq_objects::SeqObject;

pub(crate) struct LooksAtLock;

impl<S: SeqObject> Play<Slot<S, S::Op, S::Reply>, DeskView> for LooksAtLock {
    ghost use Rattle.desk_invariant.specs.Plays.{looks_at_lock};

    ghost then = { looks_at_lock S.content S.op_in S.reply_in };
}

pub(crate) struct Wins;

impl<S: SeqObject> Play<Slot<S, S::Op, S::Reply>, DeskView> for Wins {
    ghost use Rattle.desk_invariant.specs.Plays.{wins};

    ghost then = { wins S.content S.op_in S.reply_in };
}

pub(crate) struct Releases;

impl<S: SeqObject> Play<Slot<S, S::Op, S::Reply>, DeskView> for Releases {
    ghost use Rattle.desk_invariant.specs.Plays.{releases};

    ghost then = { releases S.content S.op_in S.reply_in };
}

pub(crate) struct LooksAtRow;

impl<S: SeqObject> Play<Slot<S, S::Op, S::Reply>, DeskView> for LooksAtRow {
    ghost use Rattle.desk_invariant.specs.Plays.{looks_at_row};

    ghost then = { looks_at_row S.content S.op_in S.reply_in };
}

pub(crate) struct Picks;

impl<S: SeqObject> Play<Slot<S, S::Op, S::Reply>, DeskView> for Picks {
    ghost use Rattle.desk_invariant.specs.Plays.{picks};

    ghost then = { picks S.content S.op_in S.reply_in };
}

pub(crate) struct Answers;

impl<S: SeqObject> Play<Slot<S, S::Op, S::Reply>, DeskView> for Answers {
    ghost use Rattle.desk_invariant.specs.Plays.{answers};

    ghost then = { answers S.content S.op_in S.reply_in };
}

pub(crate) struct PutsBack;

impl<S: SeqObject> Play<Slot<S, S::Op, S::Reply>, DeskView> for PutsBack {
    ghost use Rattle.desk_invariant.specs.Plays.{puts_back};

    ghost then = { puts_back S.content S.op_in S.reply_in };
}

pub(crate) struct Draws;

impl<S: SeqObject> Play<Slot<S, S::Op, S::Reply>, DeskView> for Draws {
    ghost use Rattle.desk_invariant.specs.Plays.{draws};

    ghost then = { draws S.content S.op_in S.reply_in };
}

pub(crate) struct Posts;

impl<S: SeqObject> Play<Slot<S, S::Op, S::Reply>, DeskView> for Posts {
    ghost use Rattle.desk_invariant.specs.Plays.{posts};

    ghost then = { posts S.content S.op_in S.reply_in };
}

pub(crate) struct LooksForAnswer;

impl<S: SeqObject> Play<Slot<S, S::Op, S::Reply>, DeskView> for LooksForAnswer {
    ghost use Rattle.desk_invariant.specs.Plays.{looks_for_answer};

    ghost then = { looks_for_answer S.content S.op_in S.reply_in };
}

pub(crate) struct Takes;

impl<S: SeqObject> Play<Slot<S, S::Op, S::Reply>, DeskView> for Takes {
    ghost use Rattle.desk_invariant.specs.Plays.{takes_answer};

    ghost then = { takes_answer S.content S.op_in S.reply_in };
}

pub(crate) struct Returns;

impl<S: SeqObject> Play<Slot<S, S::Op, S::Reply>, DeskView> for Returns {
    ghost use Rattle.desk_invariant.specs.Plays.{returns};

    ghost then = { returns S.content S.op_in S.reply_in };
}

pub(crate) struct Begins;

impl<S: SeqObject> Play<Slot<S, S::Op, S::Reply>, DeskView> for Begins {
    ghost use Rattle.desk_invariant.specs.Plays.{begins};

    ghost then = { begins S.content S.op_in S.reply_in };
}

pub(crate) struct Learns;

impl<S: SeqObject> Play<Slot<S, S::Op, S::Reply>, DeskView> for Learns {
    ghost use Rattle.desk_invariant.specs.Plays.{learns};

    ghost then = { learns S.content S.op_in S.reply_in };
}

pub(crate) struct Adopts;

impl<S: SeqObject> Play<Slot<S, S::Op, S::Reply>, DeskView> for Adopts {
    ghost use Rattle.desk_invariant.specs.Plays.{adopts};

    ghost then = { adopts S.content S.op_in S.reply_in };
}

pub(crate) struct Ends;

impl<S: SeqObject> Play<Slot<S, S::Op, S::Reply>, DeskView> for Ends {
    ghost use Rattle.desk_invariant.specs.Plays.{ends};

    ghost then = { ends S.content S.op_in S.reply_in };
}

pub(crate) struct SeesEnd;

impl<S: SeqObject> Play<Slot<S, S::Op, S::Reply>, DeskView> for SeesEnd {
    ghost use Rattle.desk_invariant.specs.Plays.{sees_end};

    ghost then = { sees_end S.content S.op_in S.reply_in };
}

/// Tells another client that this one has ended.
pub(crate) struct SendsEnd;

impl Split<DeskView> for SendsEnd {
    ghost use Rattle.desk_invariant.specs.Views.{end_message};

    ghost left = { λ v. v };

    ghost right = { end_message };
}

pub(crate) struct TakesNotice;

impl Join<DeskView> for TakesNotice {
    ghost use Rattle.desk_invariant.specs.Views.{after_notice, empty_message};

    ghost both = { λ v t. after_notice t.left v };

    ghost spent = { empty_message };
}

/// Makes the seat of one more client.
pub(crate) struct Makes;

impl Split<DeskView> for Makes {
    ghost use Rattle.desk_invariant.specs.Views.{after_making, new_client};

    ghost left = { after_making };

    ghost right = { λ v. new_client v.kinds v.lists v.made };
}

/// What a client has seen, for another.
pub(crate) struct SendsSeen;

impl Split<DeskView> for SendsSeen {
    ghost use Rattle.desk_invariant.specs.Views.{seen_message};

    ghost left = { λ v. v };

    ghost right = { seen_message };
}

pub(crate) struct TakesMessage;

impl Join<DeskView> for TakesMessage {
    ghost use Rattle.desk_invariant.specs.Views.{after_message, empty_message};

    ghost both = { after_message };

    ghost spent = { empty_message };
}
