use bas_items::Items;

/// What fixes the schedule, the clock and the random words of a run.
#[derive(Clone, Debug, Drop)]
pub struct Settings {
    /// The time of turn 0, in nanoseconds.
    pub start: u64,
    /// How far the clock goes in one turn, in nanoseconds.
    pub step: u64,
    /// What the random words past the tape begin with.
    pub salt: u64,
    /// How many instructions a thread does in one turn at most.
    pub slice: u32,
    /// The words that pick a ready thread, one a turn.
    pub picks: Items<u64>,
    /// The first random words.
    pub randoms: Items<u64>,
}

/// How many turns were made, and how many words of the two tapes were used.
#[derive(Clone, Copy, Debug, PartialEq, Eq)]
pub struct Positions {
    pub turns: u64,
    pub pick: u64,
    pub random: u64,
}
