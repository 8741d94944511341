ghost use Rattle.std.specs.Prelude.{◌≡◌, ◌<◌, ◌-◌, ◌↔◌, [], false, max, slice_get, IsSome, IsNone, IfSome, IfNone, OnOk, OnErr};
ghost use Rattle.std.specs.Bool.{OnTrue, OnFalse};
ghost use Rattle.turn_sched.specs.Lists.{contains, is_at, no_threads, is_resting, with_suspended, with_resumed, picked_by, picked_place};
ghost use Rattle.turn_sched.specs.Schedules.{is_listed, without_thread, with_current_waiting, with_woken_thread, with_picked, with_current_ready};

use crate::keys::{put_last, take_current, take_out};
use bas_edge::Memory;
use std::alloc::Global;
use std::marker::Model;

/// Where each thread stands, by its number: ready, waiting or suspended, each list in order, or current.
/// After `reserve` nothing takes memory.
#[derive(Drop)]
pub struct Schedule {
    ready: Vec<u64>,
    waiting: Vec<u64>,
    suspended: Vec<u64>,
    current: Option<u64>,
    spare: usize,
}

impl Model for Schedule {
    ghost use Rattle.std.specs.Prelude.{◌+◌, vec_len, vec_capacity};
    ghost use Rattle.turn_sched.specs.Lists.{Scheduled, HasRoom, count_of};

    ghost Value = { Scheduled };

    ghost view = { λ s. record {
      lists = record {
        ready = s.ready.items;
        waiting = s.waiting.items;
        suspended = s.suspended.items;
        current = s.current;
      };
      spare = s.spare;
    } };

    ghost invariant = { λ s. HasRoom
        (vec_len s.ready + vec_len s.waiting + vec_len s.suspended + count_of s.current + s.spare)
        (vec_capacity s.ready) (vec_capacity s.waiting) (vec_capacity s.suspended) };
}

impl Schedule {
    /// A schedule without threads. Takes no memory.
    pub fn new(alloc: Global) -> Schedule
        ensures { result ≡ record { lists = no_threads; spare = 0 } }
    {
        Schedule {
            ready: Vec::new(alloc),
            waiting: Vec::new(alloc),
            suspended: Vec::new(alloc),
            current: None,
            spare: 0,
        }
    }

    /// Makes room for `more` further threads. Takes no memory where there is room for them already.
    pub fn reserve(&mut self, more: u64) -> Result<(), Memory>
        ensures ok { OnOk result (self.new ≡ record self.old { spare = max self.old.spare more }) }
        ensures err { OnErr result (self.new ≡ self.old) }
        ensures wanting { OnErr result (self.old.spare < more) }
    {
        let more = more as usize;
        if more <= self.spare {
            return Ok(());
        }
        let current = usize::from(self.current.is_some());
        let threads = self.ready.len() + self.waiting.len() + self.suspended.len() + current;
        let Some(places) = threads.checked_add(more) else {
            return Err(Memory);
        };
        self.ready.reserve(places - self.ready.len())?;
        self.waiting.reserve(places - self.waiting.len())?;
        self.suspended.reserve(places - self.suspended.len())?;
        self.spare = more;
        Ok(())
    }

    /// Adds a thread at the end of the suspended ones.
    pub fn add(&mut self, key: u64)
        requires room { 0 < self.old.spare }
        requires unlisted { is_listed self.old.lists key ≡ false }
        ensures lists { self.new.lists ≡ with_suspended self.old.lists key }
        ensures spare { self.new.spare ≡ self.old.spare - 1 }
    {
        self.spare -= 1;
        put_last(&mut self.suspended, key);
    }

    /// Moves a suspended or current thread to the end of the ready ones; `false` where it is neither.
    pub fn start(&mut self, key: u64) -> bool
        ensures found { result ≡ is_resting self.old.lists key }
        ensures started { OnTrue result (self.new.lists ≡ with_resumed self.old.lists key) }
        ensures spare { self.new.spare ≡ self.old.spare }
        ensures same { OnFalse result (self.new ≡ self.old) }
    {
        let rests = take_out(&mut self.suspended, key) | take_current(&mut self.current, key);
        if !rests {
            return false;
        }
        put_last(&mut self.ready, key);
        true
    }

    /// Moves the current thread to the end of the waiting ones; `false` where another is current, or none.
    pub fn wait(&mut self, key: u64) -> bool
        ensures found { result ≡ is_at key self.old.lists.current }
        ensures waits { OnTrue result (self.new.lists ≡ with_current_waiting self.old.lists key) }
        ensures spare { self.new.spare ≡ self.old.spare }
        ensures same { OnFalse result (self.new ≡ self.old) }
    {
        if self.current != Some(key) {
            return false;
        }
        self.current = None;
        put_last(&mut self.waiting, key);
        true
    }

    /// Moves a waiting thread to the end of the ready ones; `false` where it doesn't wait.
    pub fn wake(&mut self, waiter: u64) -> bool
        ensures found { result ≡ contains self.old.lists.waiting waiter }
        ensures woken { OnTrue result (self.new.lists ≡ with_woken_thread self.old.lists waiter) }
        ensures spare { self.new.spare ≡ self.old.spare }
        ensures same { OnFalse result (self.new ≡ self.old) }
    {
        if !take_out(&mut self.waiting, waiter) {
            return false;
        }
        put_last(&mut self.ready, waiter);
        true
    }

    /// Takes a thread out of the schedule, wherever it stands; `false` where it stands nowhere.
    pub fn leave(&mut self, key: u64) -> bool
        ensures found { result ≡ is_listed self.old.lists key }
        ensures left { self.new.lists ≡ without_thread self.old.lists key }
        ensures spare { self.new.spare ≡ self.old.spare }
        ensures same { OnFalse result (self.new ≡ self.old) }
    {
        let was_ready = take_out(&mut self.ready, key);
        let waited = take_out(&mut self.waiting, key);
        let was_suspended = take_out(&mut self.suspended, key);
        let was_current = take_current(&mut self.current, key);
        was_ready | (waited | (was_suspended | was_current))
    }

    /// The ready thread at a place, counted from 0; `None` past the end.
    pub fn ready_at(&self, place: usize) -> Option<u64>
        ensures { result ≡ slice_get self.now.lists.ready place }
    {
        self.ready.get(place).copied()
    }

    /// The waiting thread at a place, counted from 0; `None` past the end.
    pub fn waiting_at(&self, place: usize) -> Option<u64>
        ensures { result ≡ slice_get self.now.lists.waiting place }
    {
        self.waiting.get(place).copied()
    }

    /// The suspended thread at a place, counted from 0; `None` past the end.
    pub fn suspended_at(&self, place: usize) -> Option<u64>
        ensures { result ≡ slice_get self.now.lists.suspended place }
    {
        self.suspended.get(place).copied()
    }

    /// The current thread.
    pub fn current(&self) -> Option<u64>
        ensures { result ≡ self.now.lists.current }
    {
        self.current
    }

    /// Whether a thread rests: it is suspended or current.
    pub fn rests(&self, key: u64) -> bool
        ensures { result ≡ is_resting self.now.lists key }
    {
        self.suspended.contains(&key) | (self.current == Some(key))
    }

    /// Makes the ready thread at place `word`, modulo how many are ready, the current one; `None` where none is
    /// ready.
    pub fn pick(&mut self, word: u64) -> Option<u64>
        requires { self.old.lists.current ≡ None }
        ensures picked { result ≡ picked_by word self.old.lists }
        ensures some { IfSome result (λ key.
            self.new.lists ≡ with_picked self.old.lists (picked_place word self.old.lists) key) }
        ensures none { IfNone result (self.new ≡ self.old) }
        ensures spare { self.new.spare ≡ self.old.spare }
        ensures nothing { IsNone result ↔ (self.old.lists.ready ≡ []) }
    {
        if self.ready.is_empty() {
            return None;
        }
        let place = (word % self.ready.len() as u64) as usize;
        let key = self.ready.remove(place);
        self.current = Some(key);
        Some(key)
    }

    /// Puts the current thread at the end of the ready ones.
    pub fn back(&mut self)
        requires { IsSome self.old.lists.current }
        ensures lists { IfSome self.old.lists.current (λ key.
            self.new.lists ≡ with_current_ready self.old.lists key) }
        ensures spare { self.new.spare ≡ self.old.spare }
    {
        let Some(key) = self.current else {
            unreachable!();
        };
        self.current = None;
        put_last(&mut self.ready, key);
    }
}
