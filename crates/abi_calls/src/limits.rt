//! The numbers that bound calls and objects.

/// The most bytes that one call reads or writes.
pub const MOST_BYTES: u64 = 65_536;

/// The most bytes of a file.
pub const LONGEST_FILE: u64 = 16_777_216;

/// The most bytes of a file's name.
pub const LONGEST_NAME: usize = 80;

/// The bytes that a pipe holds.
pub const PIPE_BYTES: usize = 4_096;

/// The most pages of a process.
pub const MOST_PAGES: usize = 1_024;

/// The most processes whose handles are live.
pub const MOST_PROCESSES: usize = 16;

/// The most live threads.
pub const MOST_THREADS: usize = 64;

/// The most objects that a thread waits for at once.
pub const MOST_WAITS: usize = 16;

/// The most instructions of a turn.
pub const MOST_SLICE: u64 = 65_536;

/// The most words of a tape.
pub const MOST_WORDS: u64 = 65_536;

/// The right to read a page.
pub const READ_RIGHT: u8 = 1;

/// The right to write a page.
pub const WRITE_RIGHT: u8 = 2;

/// All rights of a page: to read, to write and to run it.
pub const ALL_RIGHTS: u8 = 7;
