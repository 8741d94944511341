ghost use Rattle.std.specs.Prelude.{◌≡◌, ℕ, Bool, IfOk, OnErr};
ghost use Rattle.host_objects.specs.Numbers.{Gives, TakesBack, StaysLive};

use bas_edge::Memory;

/// Numbers for objects. A number is live from when it is given until it is taken back.
pub trait Numbers {
    /// Whether a number is live.
    ghost is_live: { Self → ℕ → Bool };

    /// Gives a number of at least 1 that isn't live.
    fn give(&mut self) -> Result<u64, Memory>
        ensures given { IfOk result (Gives (is_live self.old) (is_live self.new)) }
        ensures same { OnErr result (StaysLive (is_live self.old) (is_live self.new)) };

    /// Takes a number back, which is then no longer live.
    fn back(&mut self, number: u64)
        ensures { TakesBack (is_live self.old) number (is_live self.new) };

    /// Whether a number is live.
    fn live(&self, number: u64) -> bool
        ensures { result ≡ is_live self.now number };
}
