ghost use Rattle.std.specs.Prelude.{◌≡◌, ◌↔◌, IfErr, IsTrue, OnErr, OnOk, length, unwrap_or, None, ◌*◌};
ghost use Rattle.std.specs.Option.{option_map};
ghost use Rattle.std.specs.Result.{result_err};
ghost use Rattle.std.specs.FinMap as map;
ghost use Rattle.rv_core.specs.Machine.{trap_of};
ghost use Rattle.guest_space.specs.Space.{IsSpace, bytes_from, memory_of, protected, with_memory, with_run, without_run};
ghost use Rattle.guest_space.specs.Access.{first_fault, with_bytes};
ghost use Rattle.guest_space.specs.Running.{run_space};
ghost use Rattle.guest_memory.specs.Refusals.{access_refusal, allocate_refusal, fault_of_error, free_refusal, pages_refusal, protect_refusal};

use crate::access::{copy_in, copy_out, refused_access};
use crate::error::PageError;
use crate::held::Held;
use crate::page::{ALL_RIGHTS, MOST_PAGES, PAGE_SIZE, Page, READ, RUN, WRITE};
use crate::place::{Hints, find, make_table, note};
use crate::run::{
    insert_run, is_page_run, missing_page, place_for, protect_run, refused_pages, remove_run,
};
use crate::word::{number_with, put};
use rv_core::{Cells, CodeCells, Context, Ended, Memo, slice, slice_with};
use std::alloc::Global;
use std::marker::Model;

/// The memory of a process: at most 1,024 pages, which contracts see as the space of pages by number.
#[derive(Drop)]
pub struct Pages {
    pages: Vec<Page>,
    hints: Hints,
    /// The page of the code that was fetched last.
    held: Held,
}

impl Model for Pages {
    ghost use Rattle.std.specs.Coded.{coded_ℕ};
    ghost use Rattle.std.specs.FinMap as map;
    ghost use Rattle.guest_space.specs.Space.{Space, frame_code};

    ghost Value = { Space };

    ghost coded = { map.code coded_ℕ frame_code };

    ghost use Rattle.std.specs.Prelude.{map as map_list};
    ghost use Rattle.guest_memory.specs.Pages.{AreInOrder, Holds, label_of, space_of};

    ghost view = { λ memory. space_of memory.pages.items };

    ghost invariant = { λ memory.
        AreInOrder memory.pages.items × Holds (map_list label_of memory.pages.items) memory.held };
}

impl Cells for Pages {
    ghost memory = { memory_of };

    #[inline(always)]
    fn fetch(&self, at: u64) -> Option<u32> {
        match number_with(&self.pages, &self.hints, at, 4, RUN) {
            Some(word) => Some(word as u32),
            None => None,
        }
    }

    #[inline(always)]
    fn load(&self, at: u64, size: u8) -> Option<u64> {
        number_with(&self.pages, &self.hints, at, size, READ)
    }

    #[inline(always)]
    fn store(&mut self, at: u64, size: u8, value: u64) -> bool {
        put(&mut self.pages, &self.hints, at, size, value)
    }
}

impl CodeCells for Pages {
    #[inline(always)]
    fn fetch_held(&self, at: u64) -> Option<u32> {
        self.held.word(&self.pages, at)
    }

    #[inline(always)]
    fn fetch_anew(&mut self, at: u64) -> Option<u32> {
        if let Some(place) = find(&self.pages, &self.hints, at / PAGE_SIZE as u64) {
            self.held = Held::page(&self.pages, place, at);
        }
        self.fetch(at)
    }
}

impl Pages {
    /// The memory of a process without pages. Takes no memory.
    pub fn new(alloc: Global) -> Pages
        ensures { result ≡ map.empty }
    {
        Pages {
            pages: Vec::new(alloc),
            hints: None,
            held: Held::nothing(),
        }
    }

    /// Each page is one that a process may have, with 4,096 bytes. Does nothing: it is called to know this.
    pub fn pages_are_sound(&self)
        ensures { IsSpace self.now }
    {
        let _ = &self.pages;
    }

    /// How many pages there are.
    pub fn len(&self) -> usize
        ensures count { result ≡ map.len self.now }
        ensures sound { IsSpace self.now }
    {
        self.pages.len()
    }

    /// Whether there is no page.
    pub fn is_empty(&self) -> bool
        ensures { IsTrue result ↔ (self.now ≡ map.empty) }
    {
        self.pages.is_empty()
    }

    /// Adds a run of `count` pages of zeros, from page `page` on, with rights that are a sum of 1 (read),
    /// 2 (write) and 4 (run). After an `Err` all is as before.
    ///
    /// # Errors
    /// `Range`, `Overlap` with the first page that is there already, `Full`, and then `Memory`.
    pub fn allocate(&mut self, page: u64, count: u64, rights: u8) -> Result<(), PageError>
        ensures ok { OnOk result (self.new ≡ with_run self.old page count rights) }
        ensures granted { OnOk result (allocate_refusal self.old page count rights ≡ None) }
        ensures cause { IfErr result
            (λ e. e ≡ unwrap_or (allocate_refusal self.old page count rights) PageError.Memory) }
        ensures err { OnErr result (self.new ≡ self.old) }
    {
        if !is_page_run(page, count) || rights > ALL_RIGHTS {
            return Err(PageError::Range);
        }
        let place = match place_for(&self.pages, page, count) {
            Ok(place) => place,
            Err(held) => return Err(PageError::Overlap(held)),
        };
        if self.pages.len() + count as usize > MOST_PAGES {
            return Err(PageError::Full);
        }
        if self.pages.try_reserve(count as usize).is_err() {
            return Err(PageError::Memory);
        }
        if make_table(&mut self.hints, *self.pages.allocator()).is_err() {
            return Err(PageError::Memory);
        }
        self.held = Held::nothing();
        insert_run(&mut self.pages, place, page, count, rights);
        note(&self.pages, &mut self.hints, place);
        Ok(())
    }

    /// Removes a run of `count` pages, from page `page` on. Takes no memory; after an `Err` all is as before.
    ///
    /// # Errors
    /// `Range`, and `Unmapped` with the first page that isn't there.
    pub fn free(&mut self, page: u64, count: u64) -> Result<(), PageError>
        ensures cause { result_err result ≡ free_refusal self.old page count }
        ensures ok { OnOk result (self.new ≡ without_run self.old page count) }
        ensures err { OnErr result (self.new ≡ self.old) }
    {
        if !is_page_run(page, count) {
            return Err(PageError::Range);
        }
        if let Some(missing) = missing_page(&self.pages, &self.hints, page, count) {
            return Err(PageError::Unmapped(missing));
        }
        remove_run(&mut self.pages, page, count);
        note(&self.pages, &mut self.hints, 0);
        self.held = Held::nothing();
        Ok(())
    }

    /// Gives a run of `count` pages, from page `page` on, other rights. Takes no memory; after an `Err` all is
    /// as before.
    ///
    /// # Errors
    /// `Range`, and `Unmapped` with the first page that isn't there.
    pub fn protect(&mut self, page: u64, count: u64, rights: u8) -> Result<(), PageError>
        ensures cause { result_err result ≡ protect_refusal self.old page count rights }
        ensures ok { OnOk result (self.new ≡ protected self.old page count rights) }
        ensures err { OnErr result (self.new ≡ self.old) }
    {
        if !is_page_run(page, count) || rights > ALL_RIGHTS {
            return Err(PageError::Range);
        }
        if let Some(missing) = missing_page(&self.pages, &self.hints, page, count) {
            return Err(PageError::Unmapped(missing));
        }
        self.held = Held::nothing();
        protect_run(&mut self.pages, &self.hints, page, count, rights);
        Ok(())
    }

    /// Reads the bytes at `at` into a buffer, each of which must have the right to read. Takes no memory; after
    /// an `Err` the buffer is as before. To read no bytes is granted wherever they would be.
    ///
    /// # Errors
    /// `Unmapped` and `Denied`, by the first page that isn't there or lacks the right.
    pub fn read(&self, at: u64, buf: &mut [u8]) -> Result<(), PageError>
        ensures cause { result_err result ≡ access_refusal (memory_of self.now) READ at (length buf.old) }
        ensures fault { option_map fault_of_error (result_err result)
            ≡ first_fault (memory_of self.now) READ at (length buf.old) }
        ensures ok { OnOk result (buf.new ≡ bytes_from (memory_of self.now) at (length buf.old)) }
        ensures err { OnErr result (buf.new ≡ buf.old) }
    {
        match refused_access(&self.pages, &self.hints, at, buf.len(), READ) {
            Some(error) => Err(error),
            None => {
                copy_out(&self.pages, &self.hints, at, buf);
                Ok(())
            }
        }
    }

    /// Writes bytes at `at`, each of which must have the right to write. Takes no memory; after an `Err` all is
    /// as before. To write no bytes is granted wherever they would be.
    ///
    /// # Errors
    /// `Unmapped` and `Denied`, by the first page that isn't there or lacks the right.
    pub fn write(&mut self, at: u64, bytes: &[u8]) -> Result<(), PageError>
        ensures cause { result_err result
            ≡ access_refusal (memory_of self.old) WRITE at (length bytes.now) }
        ensures fault { option_map fault_of_error (result_err result)
            ≡ first_fault (memory_of self.old) WRITE at (length bytes.now) }
        ensures ok { OnOk result
            (self.new ≡ with_memory self.old (with_bytes (memory_of self.old) at bytes.now)) }
        ensures err { OnErr result (self.new ≡ self.old) }
    {
        match refused_access(&self.pages, &self.hints, at, bytes.len(), WRITE) {
            Some(error) => Err(error),
            None => {
                self.held = Held::nothing();
                copy_in(&mut self.pages, &self.hints, at, bytes);
                Ok(())
            }
        }
    }

    /// Reads whole pages from page `page` on into a buffer, whatever their rights. Takes no memory; after an
    /// `Err` the buffer is as before.
    ///
    /// # Errors
    /// `Range` where the buffer's length isn't one of whole pages, and `Unmapped` with the first page that
    /// isn't there.
    pub fn peek(&self, page: u64, buf: &mut [u8]) -> Result<(), PageError>
        ensures cause { result_err result ≡ pages_refusal self.now page (length buf.old) }
        ensures ok { OnOk result
            (buf.new ≡ bytes_from (memory_of self.now) (page * 4096) (length buf.old)) }
        ensures err { OnErr result (buf.new ≡ buf.old) }
    {
        match refused_pages(&self.pages, &self.hints, page, buf.len()) {
            Some(error) => Err(error),
            None => {
                if !buf.is_empty() {
                    copy_out(&self.pages, &self.hints, page * PAGE_SIZE as u64, buf);
                }
                Ok(())
            }
        }
    }

    /// Writes whole pages from page `page` on, whatever their rights. Takes no memory; after an `Err` all is as
    /// before.
    ///
    /// # Errors
    /// `Range` where the length isn't one of whole pages, and `Unmapped` with the first page that isn't there.
    pub fn poke(&mut self, page: u64, bytes: &[u8]) -> Result<(), PageError>
        ensures cause { result_err result ≡ pages_refusal self.old page (length bytes.now) }
        ensures ok { OnOk result
            (self.new ≡ with_memory self.old (with_bytes (memory_of self.old) (page * 4096) bytes.now)) }
        ensures err { OnErr result (self.new ≡ self.old) }
    {
        match refused_pages(&self.pages, &self.hints, page, bytes.len()) {
            Some(error) => Err(error),
            None => {
                if !bytes.is_empty() {
                    self.held = Held::nothing();
                    copy_in(&mut self.pages, &self.hints, page * PAGE_SIZE as u64, bytes);
                }
                Ok(())
            }
        }
    }

    /// Does instructions of a thread over these pages until one traps or `n` are done.
    #[inline]
    pub fn run(&mut self, context: &mut Context, n: u32) -> Ended
        ensures { run_space n context.old self.old
            ≡ record { context = context.new; space = self.new; trap = trap_of result } }
    {
        self.pages_are_sound();
        let ended = slice(context, self, n);
        self.pages_are_sound();
        ended
    }

    /// Does instructions of a thread over these pages until one traps or `n` are done, as `run` does, with words that
    /// are decoded once.
    #[inline]
    pub fn run_with(&mut self, context: &mut Context, memo: &mut Memo, n: u32) -> Ended
        ensures { run_space n context.old self.old
            ≡ record { context = context.new; space = self.new; trap = trap_of result } }
    {
        self.pages_are_sound();
        let ended = slice_with(context, self, memo, n);
        self.pages_are_sound();
        ended
    }
}
