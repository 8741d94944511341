ghost use Rattle.std.specs.Prelude.{◌≡◌};
ghost use Rattle.abi_calls.specs.Processes as processes;

use abi_calls::Settings;
use abi_calls::limits::{MOST_SLICE, MOST_WORDS};

/// Whether a host takes the settings.
pub(crate) fn is_acceptable(settings: &Settings) -> bool
    ensures { result ≡ processes.is_acceptable settings.now }
{
    let slice = u64::from(settings.slice);
    let picks = settings.picks.len() as u64;
    let randoms = settings.randoms.len() as u64;
    (slice > 0) & (slice <= MOST_SLICE) & (picks <= MOST_WORDS) & (randoms <= MOST_WORDS)
}
