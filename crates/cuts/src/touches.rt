//! Touches: what a call does to one cell. A cell contains a value, or none.

/// What a call needs of what the cell contains before it.
#[derive(Clone, Copy)]
pub(crate) enum Need {
    /// Any content will do.
    Any,
    /// It contains this.
    Is(Option<i64>),
    /// It does not contain this.
    IsNot(Option<i64>),
}

/// What a call leaves in the cell.
#[derive(Clone, Copy)]
pub(crate) enum Leave {
    /// What it contained before.
    AsItWas,
    /// This.
    Content(Option<i64>),
}

/// What a call does to a cell.
#[derive(Clone, Copy)]
pub(crate) struct Touch {
    pub(crate) need: Need,
    pub(crate) leave: Leave,
}
