ghost use Rattle.std.specs.Prelude.{◌≡◌, ℕ, ◌^◌, ◌<◌, ◌==◌, ◌↔◌, length, is_some, true, IsTrue, IsSome, IfOk, OnErr};
ghost use Rattle.std.specs.Option.{option_copied};
ghost use Rattle.std.specs.FinMap as map;
ghost use Rattle.std.specs.List.{list_any};
ghost use Rattle.std.specs.Map.Iter.{ShowsInOrder, deref};
ghost use Rattle.abi_calls.specs.Objects.{running, is_some_thread};
ghost use Rattle.host_objects.specs.Handles.{Adds};
ghost use Rattle.host_objects.specs.Running.{RunsIn, SetsRegisters};
ghost use Rattle.host_objects.specs.Taken.{without_pages};

use crate::numbers::Numbers;
use crate::table::Table;
use abi_calls::Object;
use bas_edge::Memory;
use guest_memory::Pages;
use rv_core::{Context, Ended, Memo};
use std::alloc::Global;
use std::collections::btree_map::{Keys, Values};
use std::marker::Model;

/// Values under numbers that are given when a value is added and taken back when it goes.
#[derive(Drop)]
pub(crate) struct Handles<N: Numbers, V> {
    numbers: N,
    table: Table<V>,
}

impl<N: Numbers, V> Model for Handles<N, V> {
    ghost use Rattle.std.specs.Ordering.{nat_cmp};
    ghost use Rattle.std.specs.FinMap as map;
    ghost use Rattle.std.specs.Coded.{coded_ℕ};
    ghost use Rattle.host_objects.specs.Handles.{Ties};

    ghost Value = { map.FinMap nat_cmp V };

    ghost coded = { map.code coded_ℕ V.code };

    ghost view = { λ h. h.table };

    ghost invariant = { λ h. Ties (N.is_live h.numbers) h.table };
}

impl<N: Numbers + Drop, V: Drop> Handles<N, V> {
    /// No value. Numbers that are live already are never given.
    pub(crate) fn new(alloc: Global, numbers: N) -> Handles<N, V>
        ensures { result ≡ map.empty }
    {
        Handles {
            numbers,
            table: Table::new(alloc),
        }
    }

    /// The value under a number.
    #[inline]
    pub(crate) fn get(&self, number: u64) -> Option<&V>
        ensures { option_copied result ≡ map.get self.now number }
    {
        self.table.get(number)
    }

    /// Adds a value under a new number. After an `Err` the value is dropped.
    pub(crate) fn add(&mut self, value: V) -> Result<u64, Memory>
        ensures added { IfOk result (Adds self.old value self.new) }
        ensures same { OnErr result (self.new ≡ self.old) }
    {
        let number = self.numbers.give()?;
        match self.table.insert(number, value) {
            Ok(()) => Ok(number),
            Err(error) => {
                self.numbers.back(number);
                Err(error)
            }
        }
    }

    /// Puts a value in the place of the one under a number. Takes no memory.
    pub(crate) fn set(&mut self, number: u64, value: V)
        requires { IsSome (map.get self.old number) }
        ensures { self.new ≡ map.insert self.old number value }
    {
        self.table.set(number, value);
    }

    /// Ends a number with the value under it.
    pub(crate) fn end(&mut self, number: u64)
        ensures { self.new ≡ map.remove self.old number }
    {
        self.table.remove(number);
        self.numbers.back(number);
    }

    /// The numbers, by rising number.
    pub(crate) fn numbers(&self) -> Keys<'_, u64, V>
        ensures runs { ShowsInOrder (deref {X = ℕ}) }
        ensures has { (q : ℕ) → is_some (map.get self.now q) ≡ list_any (λ k. k == q) result }
    {
        self.table.numbers()
    }

    /// The values, by rising number.
    pub(crate) fn values(&self) -> Values<'_, u64, V>
        ensures rest { result ≡ map.values self.now }
        ensures runs { ShowsInOrder (deref {X = V}) }
        ensures fits { length result < 2 ^ 63 }
    {
        self.table.values()
    }

    /// Whether there is no value.
    pub(crate) fn is_empty(&self) -> bool
        ensures { IsTrue result ↔ (self.now ≡ map.empty) }
    {
        self.table.is_empty()
    }
}

impl<N: Numbers + Drop> Handles<N, Object<Pages>> {
    /// Takes the pages of a process that runs out of it; `None` where no such process runs. Takes no memory.
    pub(crate) fn take_pages(&mut self, process: u64, alloc: Global) -> Option<Pages>
        ensures taken { result ≡ running (map.get self.old process) }
        ensures left { self.new ≡ without_pages self.old process result }
    {
        self.table.take_pages(process, alloc)
    }

    /// Gives a thread these registers, where it stands.
    pub(crate) fn set_registers(&mut self, thread: u64, registers: &Context)
        requires { is_some_thread (map.get self.old thread) ≡ true }
        ensures { SetsRegisters self.old thread registers.now self.new }
    {
        self.table.set_registers(thread, registers);
    }

    /// Does instructions of a thread in the pages of a process, where they stand, until one traps or `most` are done.
    pub(crate) fn run(
        &mut self,
        process: u64,
        context: &mut Context,
        memo: &mut Memo,
        most: u32,
    ) -> Ended
        requires { IsSome (running (map.get self.old process)) }
        ensures { RunsIn self.old process most context.old result self.new context.new }
    {
        self.table.run(process, context, memo, most)
    }
}
