use thiserror::Error;

/// Why a call on the pages of a process was refused. A refused call changes nothing.
#[derive(Clone, Copy, Debug, PartialEq, Eq, Error)]
pub enum PageError {
    /// The page, the first of the run, is there already.
    #[error("page {0} is there already")]
    Overlap(u64),
    /// The page, the first of those that are touched, isn't there.
    #[error("page {0} isn't there")]
    Unmapped(u64),
    /// The page, the first of those that are touched, lacks the right.
    #[error("page {0} lacks the right")]
    Denied(u64),
    /// The pages aren't ones that a process may have, or the length isn't one of whole pages.
    #[error("not a range of pages")]
    Range,
    /// The process would have more than 1,024 pages.
    #[error("too many pages")]
    Full,
    /// The host's memory is used up.
    #[error("out of memory")]
    Memory,
}
