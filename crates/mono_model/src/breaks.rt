/// What becomes of the pages of a process whose break is asked to be elsewhere.
#[derive(Clone, Copy, Debug, PartialEq, Eq)]
pub enum BreakMove {
    /// So many pages are made, from this one on.
    Grows { page: u64, count: u64 },
    /// So many pages go, from this one on.
    Shrinks { page: u64, count: u64 },
    /// The break moves, and the pages stay.
    Within,
    /// The break stays: it is asked to be below its start.
    Stays,
}
