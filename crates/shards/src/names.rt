//! In which shard an object is, and what its name is there.

ghost use Rattle.std.specs.Prelude.{◌≡◌, ◌<◌, ◌/◌, ◌+◌, ◌↔◌, ℕ, IsTrue};
ghost use Rattle.shards.specs.Dividing as spec;
ghost use Rattle.shards.specs.Dividing.{IsObjectOfShard, most_names, name_in_shard, shard_among};

/// How many objects the text of a shard may name.
const MOST_NAMES: u32 = 65_536;

/// The shard of an object, of `shards`.
pub(crate) fn shard_of(object: u32, shards: u16) -> u16
    requires { 0 < shards }
    ensures { result ≡ shard_among shards object }
{
    ((object / MOST_NAMES + object % MOST_NAMES) % u32::from(shards)) as u16
}

/// An object's name in its shard.
pub(crate) fn name_of(object: u32) -> u16
    ensures { result ≡ name_in_shard object }
{
    (object % MOST_NAMES) as u16
}

/// Whether the object's number fits this many shards: then its shard and its name there identify
/// it.
pub(crate) fn fits(object: u32, shards: u16) -> bool
    ensures { IsTrue result ↔ (object / most_names < shards) }
{
    object / MOST_NAMES < u32::from(shards)
}

/// The object with this name in shard `shard` of `shards`.
pub fn object_named(shards: u16, shard: u16, name: u32) -> u32
    ensures { result ≡ spec.object_named shards shard name }
{
    let name = name % MOST_NAMES;
    let count = u32::from(shards);
    if count == 0 {
        // As the definition has it: n mod 0 is n.
        return u32::from(shard) * MOST_NAMES + name;
    }
    let upper = (u32::from(shard) + (count - name % count)) % count;
    upper * MOST_NAMES + name
}

/// An object that fits is found again by its shard and its name there, and what is found by a shard
/// and a name is such an object.
pub fn objects_have_own_names()
    ensures own { (count x : ℕ) → x / most_names < count
        → spec.object_named count (shard_among count x) (name_in_shard x) ≡ x }
    ensures named { (count shard name : ℕ) → shard < count → name < most_names
        → IsObjectOfShard count shard name (spec.object_named count shard name) }
{}

/// Returns how many shards an object needs at least.
pub fn shards_needed(object: u32) -> u32
    ensures { result ≡ object / most_names + 1 }
{
    object / MOST_NAMES + 1
}
