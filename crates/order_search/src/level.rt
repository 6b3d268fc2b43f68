//! One level of a search.

use crate::Undo;
use crate::digest::Digest;

/// What can come next in an order.
#[derive(Clone, Copy)]
pub(crate) struct Window {
    /// The least return of the operations that are not in the order.
    pub least: u32,
    /// A place that is not in the order, or the end: each operation below it that is not in the
    /// order has returned.
    pub pending: u32,
}

/// One place of the order under way, with what held before it was placed, and what undoes its
/// operation.
#[derive(Clone, Copy, Drop)]
pub(crate) struct Level {
    pub place: u32,
    pub undo: Undo,
    /// What could come next.
    pub window: Window,
    /// It is above all places in the order.
    pub high: u32,
    pub digest: Digest,
}
