//! What each step on the table tells who takes it.

use crate::list_table::ListView;
use atomic_table::{Play, Split};

pub(crate) struct Sees;

impl Play<u64, ListView> for Sees {
    ghost use Rattle.publication_list.specs.Plays.{sees};

    ghost then = { sees };
}

pub(crate) struct Looks;

impl Play<u64, ListView> for Looks {
    ghost use Rattle.publication_list.specs.Plays.{looks};

    ghost then = { looks };
}

pub(crate) struct Wakes;

impl Play<u64, ListView> for Wakes {
    ghost use Rattle.publication_list.specs.Plays.{wakes};

    ghost then = { wakes };
}

pub(crate) struct Links;

impl Play<u64, ListView> for Links {
    ghost use Rattle.publication_list.specs.Plays.{links};

    ghost then = { links };
}

pub(crate) struct Enlists;

impl Play<u64, ListView> for Enlists {
    ghost use Rattle.publication_list.specs.Plays.{enlists};

    ghost then = { enlists };
}

pub(crate) struct Meets;

impl Play<u64, ListView> for Meets {
    ghost use Rattle.publication_list.specs.Plays.{meets};

    ghost then = { meets };
}

pub(crate) struct Follows;

impl Play<u64, ListView> for Follows {
    ghost use Rattle.publication_list.specs.Plays.{follows};

    ghost then = { follows };
}

pub(crate) struct Unlinks;

impl Play<u64, ListView> for Unlinks {
    ghost use Rattle.publication_list.specs.Plays.{unlinks};

    ghost then = { unlinks };
}

pub(crate) struct Sleeps;

impl Play<u64, ListView> for Sleeps {
    ghost use Rattle.publication_list.specs.Plays.{sleeps};

    ghost then = { sleeps };
}

/// Makes the seat of one more place.
pub(crate) struct Makes;

impl Split<ListView> for Makes {
    ghost use Rattle.publication_list.specs.Plays.{after_making, new_place};

    ghost left = { after_making };

    ghost right = { new_place };
}
