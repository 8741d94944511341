ghost use Rattle.std.specs.Prelude.{◌≡◌, IsTrue, MatchOption, MatchResult, OnOk, is_some, length, true};
ghost use Rattle.guest_memory.specs.Pages.{AreInOrder, IsFound, IsAbsent, IsGap, IsPlaceOf};
ghost use Rattle.guest_memory.specs.Hints.{AreKept, AreNoted, slot_of};

use crate::page::Page;
use std::alloc::{AllocError, Global};

/// How many slots the table of hints has.
pub const HINTS: usize = 1024;

/// Where each page was last put, by its slot; no table before the first page. A hint may be out of date or another
/// page's, so whoever uses one compares the page's number.
pub type Hints = Option<Box<[u16; HINTS]>>;

/// The first of the pages that take their slots from the table's end on.
const MAPPED: u64 = 65_536;

/// The slot of a page. The pages of a program rise from the table's start, and pages mapped from 65,536 on, where a
/// program seldom has others, fall from its end: so the first of either kind don't meet.
#[inline(always)]
fn slot(number: u64) -> usize
    ensures { result ≡ slot_of number }
{
    let rising = if number < MAPPED {
        number
    } else {
        u64::MAX - number
    };
    (rising % HINTS as u64) as usize
}

/// Makes a table of hints where there is none yet.
pub fn make_table(hints: &mut Hints, alloc: Global) -> Result<(), AllocError>
    ensures { OnOk result (is_some hints.new ≡ true) }
{
    if hints.is_none() {
        *hints = Some(Box::new(alloc, [0; HINTS])?);
    }
    Ok(())
}

/// The place of a page by binary search, or the place where it would have to be put.
#[cold]
pub fn search(pages: &[Page], number: u64) -> Result<usize, usize>
    requires { AreInOrder pages.now }
    ensures { MatchResult result (IsPlaceOf pages.now number) (IsGap pages.now number 1) }
{
    pages.binary_search_by_key(&number, |page| page.number)
}

/// Whether the page of a number stands at a place.
#[inline(always)]
pub fn is_at(pages: &[Page], place: usize, number: u64) -> bool
    requires { AreInOrder pages.now }
    ensures { IsTrue result → IsFound pages.now number place }
{
    place < pages.len() && pages[place].number == number
}

/// The place of a page, at once where its hint is right.
#[inline(always)]
pub fn find(pages: &[Page], hints: &Hints, number: u64) -> Option<usize>
    requires { AreInOrder pages.now }
    ensures { MatchOption result (IsAbsent pages.now number) (IsFound pages.now number) }
{
    if let Some(table) = hints {
        let hint = table[slot(number)] as usize;
        if is_at(pages, hint, number) {
            return Some(hint);
        }
    }
    match search(pages, number) {
        Ok(place) => Some(place),
        Err(_gap) => None,
    }
}

/// Notes where the pages from the place `from` on are: of those that share a slot, the last. The other hints stay.
fn note_places(pages: &[Page], table: &mut [u16; HINTS], from: usize)
    ensures noted { AreNoted pages.now table.new from (length pages.now) }
    ensures kept { AreKept pages.now table.old table.new from (length pages.now) }
{
    for place in from..pages.len() {
        table[slot(pages[place].number)] = (place % 65536) as u16;
    }
}

/// Notes where the pages from the place `from` on are, if there is a table.
pub fn note(pages: &[Page], hints: &mut Hints, from: usize) {
    if let Some(table) = hints {
        note_places(pages, table, from);
    }
}
