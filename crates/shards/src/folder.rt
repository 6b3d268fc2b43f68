//! Where the files of shards are written.

ghost use Rattle.std.specs.Prelude.{◌≡◌, Bool, true, false, Option, OnOk, OnErr};
ghost use Rattle.shards.specs.Dividing.{Files};
ghost use Rattle.shards.specs.Folders.{AddsFiles, lines_for};

use edn::Failed;

/// Takes lines of the files of shards, until it fails. Each call asks that it has not failed.
pub trait Folder {
    /// What the files have, if it is known.
    ghost files: { Self → Option Files };
    /// Whether it failed.
    ghost broken: { Self → Bool };

    /// Adds maps to the text of a shard, and their places in the full history to its table.
    fn add(&mut self, shard: u16, maps: &[u8], places: &[u8]) -> Result<(), Failed>
        requires { broken self.old ≡ false }
        ensures adds { OnOk result (AddsFiles (files self.old) (files self.new)
            (lines_for shard maps.now places.now)) }
        ensures usable { OnOk result (broken self.new ≡ false) }
        ensures failed { OnErr result (broken self.new ≡ true) };
}
