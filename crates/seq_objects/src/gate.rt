//! What is called around each piece of a worker's work.

/// A gate that workers pass through. `before` is called before each piece of work of a worker, and
/// `after` after it. Workers and pieces are counted from 0.
pub trait Gate: Sync {
    fn before(&self, worker: u32, piece: u32);

    fn after(&self, worker: u32, piece: u32);
}

/// The gate that does nothing.
#[derive(Clone, Copy, Debug, Default)]
pub struct Open;

impl Gate for Open {
    fn before(&self, _worker: u32, _piece: u32) {}

    fn after(&self, _worker: u32, _piece: u32) {}
}
