ghost use Rattle.host_monitor.specs.Edges.{told_of, sum_of};

use crate::console::Console;
use crate::edges::Edges;
use crate::output::give_all;
use abi_calls::{Call, HostError, Reply};
use bas_edge::{EdgeError, Sink, Source, Store};
use bas_items::Items;
use host_files::Files;
use std::alloc::Global;

/// The four objects of the outside, the store with the users of its files.
#[derive(Drop)]
pub(crate) struct Outside<I: Source, O, P, E: Store> {
    pub(crate) input: Console<I>,
    pub(crate) output: O,
    pub(crate) errors: P,
    pub(crate) files: Files<E>,
}

impl<I: Source, O: Sink, P: Sink, E: Store> Edges for Outside<I, O, P, E> {
    ghost told = { λ s.
        told_of (E.files s.files.store) (I.left s.input) (O.given s.output) (P.given s.errors) };

    ghost users = { λ s. s.files.users };

    ghost fault_count = { λ s.
        sum_of (I.fault_count s.input) (O.fault_count s.output)
        (P.fault_count s.errors) (E.fault_count s.files.store) };

    fn put_output(&mut self, bytes: &[u8]) -> Result<(), EdgeError> {
        give_all(&mut self.output, bytes)
    }

    fn put_errors(&mut self, bytes: &[u8]) -> Result<(), EdgeError> {
        give_all(&mut self.errors, bytes)
    }

    fn take_input(&mut self, alloc: Global, count: usize) -> Result<Items<u8>, EdgeError> {
        self.input.take_all(alloc, count)
    }

    fn call_file(&mut self, call: &Call, name: &[u8]) -> Result<Reply, HostError> {
        self.files.call(call, name)
    }

    fn faults(&self) -> u64 {
        self.input
            .source()
            .faults()
            .saturating_add(self.output.faults())
            .saturating_add(self.errors.faults())
            .saturating_add(self.files.faults())
    }
}
