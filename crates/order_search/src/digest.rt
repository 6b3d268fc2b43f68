//! A digest of the operations done and the content. It is a sum, so that an operation is taken out
//! again by a subtraction.

/// Two ways to do the same operations that leave the same content have one digest, so that a pair
/// is found again by its hash. Whether it is the same pair is always compared: nothing is promised
/// of a digest.
#[derive(Clone, Copy)]
pub(crate) struct Digest {
    done: u64,
    content: u64,
    /// The place of the next value that goes in at the back.
    back: u64,
    /// The place of the first value.
    front: u64,
}

/// The step of splitmix64 (Steele, Lea, Flood, "Fast Splittable Pseudorandom Number Generators",
/// OOPSLA 2014).
const STEP: u64 = 0x9e37_79b9_7f4a_7c15;

/// Mixes two numbers, by the finalizer of splitmix64.
pub(crate) fn mixed(a: u64, b: u64) -> u64 {
    let x = a.wrapping_add(b.wrapping_mul(STEP)).wrapping_add(STEP);
    let x = (x ^ (x >> 30)).wrapping_mul(0xbf58_476d_1ce4_e5b9);
    let x = (x ^ (x >> 27)).wrapping_mul(0x94d0_49bb_1331_11eb);
    x ^ (x >> 31)
}

pub(crate) fn bits(v: i64) -> u64 {
    u64::from_ne_bytes(v.to_ne_bytes())
}

pub(crate) fn of_value(v: i64, place: u64) -> u64 {
    mixed(bits(v), place)
}

impl Digest {
    pub fn new() -> Digest {
        Digest {
            done: 0,
            content: 0,
            back: 0,
            front: 0,
        }
    }

    pub fn hash(&self) -> u64 {
        mixed(self.content, self.done)
    }

    /// After one more operation, whose content is still to be taken in.
    pub fn with_done(self, place: u32) -> Digest {
        Digest {
            done: self.done.wrapping_add(mixed(place as u64, 7)),
            ..self
        }
    }

    /// After this value has gone in at the back.
    pub fn in_at_back(self, v: i64) -> Digest {
        Digest {
            content: self.content.wrapping_add(of_value(v, self.back)),
            back: self.back.wrapping_add(1),
            ..self
        }
    }

    /// After this value, which was the last, has come out at the back.
    pub fn out_at_back(self, v: i64) -> Digest {
        let back = self.back.wrapping_sub(1);
        Digest {
            content: self.content.wrapping_sub(of_value(v, back)),
            back,
            ..self
        }
    }

    /// After this value, which was the first, has come out in front.
    pub fn out_at_front(self, v: i64) -> Digest {
        Digest {
            content: self.content.wrapping_sub(of_value(v, self.front)),
            front: self.front.wrapping_add(1),
            ..self
        }
    }

    /// With one more part of the content, such as a key with its value.
    pub fn with(self, part: u64) -> Digest {
        Digest {
            content: self.content.wrapping_add(part),
            ..self
        }
    }

    /// Without this part of the content.
    pub fn without(self, part: u64) -> Digest {
        Digest {
            content: self.content.wrapping_sub(part),
            ..self
        }
    }

    /// With this part as the full content.
    pub fn only(self, part: u64) -> Digest {
        Digest {
            content: part,
            ..self
        }
    }
}
