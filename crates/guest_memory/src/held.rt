ghost use Rattle.std.specs.Prelude.{◌≡◌, ℕ, List, ◌/◌, map, Some, IfSome};
ghost use Rattle.rv_core.specs.Memory.{fetched};
ghost use Rattle.guest_space.specs.Space.{memory_of};
ghost use Rattle.guest_memory.specs.Pages.{AreInOrder, Holds, IsFound, label_of, space_of};

use crate::page::{PAGE_SIZE, Page, RUN};
use crate::word::number_in;

/// The page of the code that was fetched last, which is held until the list of pages or a page's rights change: no
/// store changes either, so a word in it is fetched without a look at the page's number and rights.
#[derive(Clone, Copy)]
pub struct Held {
    /// The page's place.
    pub place: usize,
    /// The page's first address.
    pub start: u64,
    /// At how many addresses from there on a word of 4 bytes begins that is within the page; 0 where no page is held.
    pub room: u64,
}

impl Held {
    /// No page is held.
    #[inline]
    pub fn nothing() -> Held
        ensures { (labels : List (ℕ × ℕ)) → Holds labels result }
    {
        Held {
            place: 0,
            start: 0,
            room: 0,
        }
    }

    /// The page at a place, which has an address, if it can be run.
    pub fn page(pages: &[Page], place: usize, at: u64) -> Held
        requires { IsFound pages.now (at / 4096) place }
        ensures { Holds (map label_of pages.now) result }
    {
        if pages[place].rights & RUN != RUN {
            return Held::nothing();
        }
        Held {
            place,
            start: at - at % PAGE_SIZE as u64,
            room: PAGE_SIZE as u64 - 3,
        }
    }

    /// The word of 4 bytes at `at`, if it is in the page that is held.
    #[inline(always)]
    pub fn word(self, pages: &[Page], at: u64) -> Option<u32>
        requires order { AreInOrder pages.now }
        requires held { Holds (map label_of pages.now) self }
        ensures { IfSome result (λ word. fetched (memory_of (space_of pages.now)) at ≡ Some word) }
    {
        let offset = at.wrapping_sub(self.start);
        if offset < self.room {
            Some(number_in(&pages[self.place].bytes, offset as usize, 4) as u32)
        } else {
            None
        }
    }
}
