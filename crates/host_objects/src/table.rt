ghost use Rattle.std.specs.Prelude.{◌≡◌, ℕ, ◌^◌, ◌<◌, ◌==◌, ◌↔◌, length, is_some, Some, true, IsTrue, IsSome, IfOk, OnOk, OnErr};
ghost use Rattle.std.specs.Option.{option_copied};
ghost use Rattle.std.specs.Ordering.{nat_cmp};
ghost use Rattle.std.specs.FinMap as map;
ghost use Rattle.std.specs.List.{list_any};
ghost use Rattle.std.specs.Map.Iter.{ShowsInOrder, deref};
ghost use Rattle.abi_calls.specs.Objects.{running, is_some_thread};
ghost use Rattle.host_objects.specs.Running.{RunsIn, RunsObject, with_registers, SetsRegisters};
ghost use Rattle.host_objects.specs.Taken.{emptied, without_pages};

use abi_calls::Object;
use bas_edge::Memory;
use guest_memory::Pages;
use rv_core::{Context, Ended, Memo};
use std::alloc::Global;
use std::collections::BTreeMap;
use std::collections::btree_map::{Keys, Values};
use std::marker::Model;
use std::mem;

/// A map from numbers to values.
#[derive(Drop)]
pub(crate) struct Table<V> {
    entries: BTreeMap<u64, V>,
}

impl<V> Model for Table<V> {
    ghost use Rattle.std.specs.Ordering.{nat_cmp};
    ghost use Rattle.std.specs.FinMap as map;
    ghost use Rattle.std.specs.Coded.{coded_ℕ};

    ghost Value = { map.FinMap nat_cmp V };

    ghost coded = { map.code coded_ℕ V.code };

    ghost view = { λ t. map.from_entries t.entries.entries };
}

impl<V: Drop> Table<V> {
    /// A map of nothing.
    pub(crate) fn new(alloc: Global) -> Table<V>
        ensures { result ≡ map.empty }
    {
        Table {
            entries: BTreeMap::new(alloc),
        }
    }

    /// The value of a number.
    #[inline]
    pub(crate) fn get(&self, number: u64) -> Option<&V>
        ensures { option_copied result ≡ map.get self.now number }
    {
        self.entries.get(&number)
    }

    /// Sets the value of a number.
    pub(crate) fn insert(&mut self, number: u64, value: V) -> Result<(), Memory>
        ensures ok { OnOk result (self.new ≡ map.insert self.old number value) }
        ensures err { OnErr result (self.new ≡ self.old) }
    {
        match self.entries.insert(number, value) {
            Ok(_) => Ok(()),
            Err(_) => Err(Memory),
        }
    }

    /// Puts a value in the place of that of a number. Takes no memory.
    pub(crate) fn set(&mut self, number: u64, value: V)
        requires { IsSome (map.get self.old number) }
        ensures { self.new ≡ map.insert self.old number value }
    {
        match self.entries.get_mut(&number) {
            Some(place) => *place = value,
            None => unreachable!(),
        }
    }

    /// Takes a number out.
    pub(crate) fn remove(&mut self, number: u64)
        ensures { self.new ≡ map.remove self.old number }
    {
        self.entries.remove(&number);
    }

    /// The numbers, by rising number.
    pub(crate) fn numbers(&self) -> Keys<'_, u64, V>
        ensures runs { ShowsInOrder (deref {X = ℕ}) }
        ensures has { (q : ℕ) → is_some (map.get self.now q) ≡ list_any (λ k. k == q) result }
    {
        self.entries.keys()
    }

    /// The values, by rising number.
    pub(crate) fn values(&self) -> Values<'_, u64, V>
        ensures rest { result ≡ map.values self.now }
        ensures runs { ShowsInOrder (deref {X = V}) }
        ensures fits { length result < 2 ^ 63 }
    {
        self.entries.values()
    }

    /// Whether there is no number.
    pub(crate) fn is_empty(&self) -> bool
        ensures { IsTrue result ↔ (self.now ≡ map.empty) }
    {
        self.entries.is_empty()
    }
}

/// Does instructions of a thread in the pages of a process until one traps or `most` are done.
#[inline(never)]
fn run_in(object: &mut Object<Pages>, context: &mut Context, memo: &mut Memo, most: u32) -> Ended
    requires { IsSome (running (Some object.old)) }
    ensures { RunsObject most object.old context.old result object.new context.new }
{
    match object {
        Object::Process { memory, code: None } => memory.run_with(context, memo, most),
        _ => unreachable!(),
    }
}

/// Takes the pages of a process that runs out of it. Takes no memory.
fn take_pages_of(object: &mut Object<Pages>, alloc: Global) -> Option<Pages>
    ensures taken { result ≡ running (Some object.old) }
    ensures left { object.new ≡ emptied object.old }
{
    match object {
        Object::Process { memory, code: None } => Some(mem::replace(memory, Pages::new(alloc))),
        _ => None,
    }
}

/// Gives a thread these registers.
fn set_registers_of(object: &mut Object<Pages>, registers: &Context)
    requires { is_some_thread (Some object.old) ≡ true }
    ensures { object.new ≡ with_registers object.old registers.now }
{
    match object {
        Object::Thread { context, .. } => *context = *registers,
        _ => unreachable!(),
    }
}

impl Table<Object<Pages>> {
    /// Takes the pages of a process that runs out of it; `None` where no such process runs. Takes no memory.
    pub(crate) fn take_pages(&mut self, process: u64, alloc: Global) -> Option<Pages>
        ensures taken { result ≡ running (map.get self.old process) }
        ensures left { self.new ≡ without_pages self.old process result }
    {
        let object = self.entries.get_mut(&process)?;
        take_pages_of(object, alloc)
    }

    /// Gives a thread these registers, where it stands.
    pub(crate) fn set_registers(&mut self, thread: u64, registers: &Context)
        requires { is_some_thread (map.get self.old thread) ≡ true }
        ensures { SetsRegisters self.old thread registers.now self.new }
    {
        match self.entries.get_mut(&thread) {
            Some(object) => set_registers_of(object, registers),
            None => unreachable!(),
        }
    }

    /// Does instructions of a thread in the pages of a process, where they stand, until one traps or `most` are done.
    pub(crate) fn run(
        &mut self,
        process: u64,
        context: &mut Context,
        memo: &mut Memo,
        most: u32,
    ) -> Ended
        requires { IsSome (running (map.get self.old process)) }
        ensures { RunsIn self.old process most context.old result self.new context.new }
    {
        match self.entries.get_mut(&process) {
            Some(object) => run_in(object, context, memo, most),
            None => unreachable!(),
        }
    }
}
