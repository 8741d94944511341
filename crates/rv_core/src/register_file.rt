ghost use Rattle.std.specs.Prelude.{◌≡◌, ◌<◌};
ghost use Rattle.rv_core.specs.RegisterFile.{HasZero, registers_of};
ghost use Rattle.rv_core.specs.Machine.{register, with_register};

use crate::context::Context;

/// The registers of a thread as a run works on them: `x[n]` is register `n`, so that register 0, which is 0, is read as
/// the others are.
#[derive(Drop)]
pub(crate) struct RegisterFile {
    pub pc: u64,
    pub x: [u64; 32],
}

impl RegisterFile {
    /// The registers of a thread.
    #[inline(always)]
    pub(crate) fn new(cx: &Context) -> RegisterFile
        ensures same { registers_of result ≡ cx.now }
        ensures zero { HasZero result }
    {
        let mut file = RegisterFile {
            pc: cx.pc,
            x: [0; 32],
        };
        file.x[1..].copy_from_slice(&cx.x);
        file
    }

    /// Gives the registers back to a thread.
    #[inline(always)]
    pub(crate) fn give_back(&self, cx: &mut Context)
        ensures { cx.new ≡ registers_of self.now }
    {
        cx.pc = self.pc;
        cx.x.copy_from_slice(&self.x[1..]);
    }

    /// What register `n` holds.
    #[inline(always)]
    pub(crate) fn read(&self, n: u8) -> u64
        requires n { n < 32 }
        requires zero { HasZero self.now }
        ensures { result ≡ register (registers_of self.now) n }
    {
        self.x[usize::from(n)]
    }

    /// Writes `value` to register `n`; a write to register 0 is lost.
    #[inline(always)]
    pub(crate) fn write(&mut self, n: u8, value: u64)
        requires { n < 32 }
        ensures same { registers_of self.new ≡ with_register (registers_of self.old) n value }
        ensures zero { HasZero self.new }
    {
        self.x[usize::from(n)] = value;
        self.x[0] = 0;
    }
}
