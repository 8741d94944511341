ghost use Rattle.std.specs.Prelude.{◌≡◌};
ghost use Rattle.host_monitor.specs.Edges.{told_of, sum_of};
ghost use Rattle.host_monitor.specs.Monitor.{input_of, output_of, errors_of, store_of};

use crate::monitor::Monitor;
use abi_calls::Host;
use bas_edge::{Sink, Source, Store};
use host_objects::Numbers;

/// At any moment the four objects of the outside tell what a monitor tells, and its count of faults is the sum of
/// theirs, held at the greatest `u64`.
pub fn told_and_faults<
    I: Source + Drop,
    O: Sink + Drop,
    P: Sink + Drop,
    E: Store + Drop,
    N: Numbers + Drop,
>(monitor: &Monitor<I, O, P, E, N>)
    ensures told { ⟦<Monitor<I, O, P, E, N> as Host>⟧.told monitor.now
        ≡ told_of (E.files (store_of monitor.now)) (I.left (input_of monitor.now))
        (O.given (output_of monitor.now)) (P.given (errors_of monitor.now)) }
    ensures faults { ⟦<Monitor<I, O, P, E, N> as Host>⟧.fault_count monitor.now
        ≡ sum_of (I.fault_count (input_of monitor.now)) (O.fault_count (output_of monitor.now))
        (P.fault_count (errors_of monitor.now)) (E.fault_count (store_of monitor.now)) }
{}
