ghost use Rattle.std.specs.Prelude.{◌≡◌, IfOk, IfSome, OnErr};
ghost use Rattle.std.specs.Ordering.{nat_cmp};
ghost use Rattle.std.specs.BTreeSet.{contains};
ghost use Rattle.host_objects.specs.Numbers.{IsLeastFree, IsBounded};

use crate::numbers::Numbers;
use bas_edge::Memory;
use std::alloc::Global;
use std::collections::BTreeSet;

/// Gives 1, 2, 3 and so on. No number comes twice until the greatest was given, and from then on the least one
/// that isn't live.
#[derive(Drop)]
pub struct Counting {
    last: u64,
    live: BTreeSet<u64>,
    ghost bounded: { IsBounded last (λ q. contains nat_cmp live q) },
}

/// The least number of at least 1 that isn't in the set, below the greatest `u64`.
fn least_free(live: &BTreeSet<u64>) -> Option<u64>
    ensures { IfSome result (IsLeastFree (λ q. contains nat_cmp live.now q)) }
{
    for number in 1..u64::MAX {
        if !live.contains(&number) {
            return Some(number);
        }
    }
    None
}

impl Counting {
    ghost use Rattle.host_objects.specs.Counting.{last_of, is_live_in};
    ghost use Rattle.host_objects.specs.Numbers.{IsUnused};

    /// A count that gave no number yet. Takes no memory.
    pub fn new(alloc: Global) -> Counting
        ensures start { last_of result ≡ 0 }
        ensures unused { IsUnused (is_live_in result) }
    {
        Counting {
            last: 0,
            live: BTreeSet::new(alloc),
        }
    }
}

impl Numbers for Counting {
    ghost use Rattle.host_objects.specs.Counting.{last_of, is_live_in};
    ghost use Rattle.host_objects.specs.Numbers.{Gives, TakesBack, StaysLive, Counts};

    ghost is_live = { is_live_in };

    fn give(&mut self) -> Result<u64, Memory>
        ensures given { IfOk result (Gives (is_live_in self.old) (is_live_in self.new)) }
        ensures counts { IfOk result (λ number.
            Counts (last_of self.old) (is_live_in self.old) number (last_of self.new)) }
        ensures same { OnErr result (StaysLive (is_live_in self.old) (is_live_in self.new)) }
        ensures same_last { OnErr result (last_of self.new ≡ last_of self.old) }
    {
        let number = match self.last.checked_add(1) {
            Some(next) => next,
            None => least_free(&self.live).ok_or(Memory)?,
        };
        match self.live.insert(number) {
            Ok(_) => {
                self.last = self.last.max(number);
                Ok(number)
            }
            Err(_) => Err(Memory),
        }
    }

    fn back(&mut self, number: u64)
        ensures back { TakesBack (is_live_in self.old) number (is_live_in self.new) }
        ensures same_last { last_of self.new ≡ last_of self.old }
    {
        self.live.remove(&number);
    }

    fn live(&self, number: u64) -> bool {
        self.live.contains(&number)
    }
}
