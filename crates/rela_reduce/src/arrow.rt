//! Edges by the numbers of their labels.
/// An edge whose label has a number.
#[derive(Clone, Copy, Debug)]
pub(crate) struct Arrow {
    /// The number of its label, and `None` where it is silent.
    pub(crate) label: Option<usize>,
    /// The state to which it leads.
    pub(crate) to: usize,
}

/// An edge that is not silent. A state may take it at once, or once silent ones have led on to it.
#[derive(Clone, Copy, Debug)]
pub(crate) struct Step {
    /// The number of its label.
    pub(crate) label: usize,
    /// The state to which it leads.
    pub(crate) to: usize,
}
