/// The registers of a thread: the program counter, and `x[i]` for register `i + 1`. Register 0 reads as 0.
#[derive(Clone, Copy, Debug, PartialEq, Eq)]
pub struct Context {
    pub pc: u64,
    pub x: [u64; 31],
}

/// Why an instruction did not take place: the cause number of the RISC-V privileged manual, and its value.
#[derive(Clone, Copy, Debug, PartialEq, Eq)]
pub struct Trap {
    pub cause: u8,
    pub value: u64,
}

/// How a run of several instructions ended.
#[derive(Clone, Copy, Debug, PartialEq, Eq)]
pub enum Ended {
    /// All instructions were done, and none trapped.
    Ran,
    /// An instruction trapped, and left everything as it was before it.
    Trapped(Trap),
}
