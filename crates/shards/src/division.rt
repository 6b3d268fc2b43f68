//! The result of dividing a history.

/// An object with more maps of clients than a text may have, and their number.
#[derive(Clone, Copy, Debug, PartialEq, Eq)]
pub struct LargeObject {
    pub object: u32,
    pub maps: u32,
}

/// How many maps each shard has, and the objects with more maps than a text may have, in rising
/// number. No shard with such an object can be judged, however many shards there are.
#[derive(Drop)]
pub struct Division {
    pub counts: Vec<u32>,
    pub large: Vec<LargeObject>,
}
