//! The rows that a report is to have.

/// A row to be made. Flows and checks are numbered from 0, in the order of their files.
#[derive(Clone, Copy, Debug, PartialEq, Eq)]
pub enum PlannedRow {
    /// The flow under a check that selects it.
    Selected {
        /// The number of the flow.
        flow: usize,
        /// The number of the check.
        check: usize,
    },
    /// The flow alone, where no check selects it.
    Unselected {
        /// The number of the flow.
        flow: usize,
    },
}
