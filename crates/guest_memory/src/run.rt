ghost use Rattle.std.specs.Prelude.{◌≡◌, ℕ, ◌+◌, ◌*◌, ◌^◌, ◌<◌, ◌≤◌, ◌++◌, IfNone, IfOk, IsTrue, drop, length, take, vec_len, vec_capacity};
ghost use Rattle.std.specs.List.{slice_rotate_right};
ghost use Rattle.std.specs.Result.{result_err};
ghost use Rattle.guest_space.specs.Space.{protected, with_run, without_run};
ghost use Rattle.guest_space.specs.Run.{first_held, first_missing, is_run};
ghost use Rattle.guest_memory.specs.Pages.{AreInOrder, AreThere, IsGap, space_of};
ghost use Rattle.guest_memory.specs.Refusals.{pages_refusal};

use crate::error::PageError;
use crate::page::{PAGE_END, PAGE_SIZE, Page};
use crate::place::{Hints, find, search};

/// Whether a process may have the pages of a run.
pub fn is_page_run(page: u64, count: u64) -> bool
    ensures { result ≡ is_run page count }
{
    page > 0 && count > 0 && page < PAGE_END && count <= PAGE_END - page
}

/// The place for the pages of a new run; as an `Err` the first of them that is there already.
pub fn place_for(pages: &[Page], page: u64, count: u64) -> Result<usize, u64>
    requires order { AreInOrder pages.now }
    requires run { IsTrue (is_run page count) }
    ensures gap { IfOk result (IsGap pages.now page count) }
    ensures held { result_err result ≡ first_held (space_of pages.now) page count }
{
    match search(pages, page) {
        Ok(_place) => Err(page),
        Err(place) => {
            if place < pages.len() && pages[place].number < page + count {
                return Err(pages[place].number);
            }
            Ok(place)
        }
    }
}

/// The first page of a run that isn't there.
pub fn missing_page(pages: &[Page], hints: &Hints, page: u64, count: u64) -> Option<u64>
    requires order { AreInOrder pages.now }
    requires end { page + count < 2 ^ 64 }
    ensures { result ≡ first_missing (space_of pages.now) page count }
{
    for number in page..page + count {
        if find(pages, hints, number).is_none() {
            return Some(number);
        }
    }
    None
}

/// Why the pages that `len` bytes fill, from page `page` on, can't be had: a length that isn't one of whole
/// pages, or the first page that isn't there.
pub fn refused_pages(pages: &[Page], hints: &Hints, page: u64, len: usize) -> Option<PageError>
    requires { AreInOrder pages.now }
    ensures cause { result ≡ pages_refusal (space_of pages.now) page len }
    ensures there { IfNone result (0 < len → AreThere (space_of pages.now) (page * 4096) len) }
{
    if len % PAGE_SIZE != 0 {
        return Some(PageError::Range);
    }
    let count = (len / PAGE_SIZE) as u64;
    if count > 0 && page >= PAGE_END {
        return Some(PageError::Unmapped(page));
    }
    match missing_page(pages, hints, page, count) {
        Some(missing) => Some(PageError::Unmapped(missing)),
        None => None,
    }
}

/// Moves the last `count` pages to a place before them.
fn move_last(pages: &mut [Page], place: usize, count: usize)
    requires { place + count ≤ length pages.old }
    ensures { pages.new ≡ take place pages.old ++ slice_rotate_right (drop place pages.old) count }
{
    pages[place..].rotate_right(count);
}

/// Adds a run of pages of zeros at their place.
pub fn insert_run(pages: &mut Vec<Page>, place: usize, page: u64, count: u64, rights: u8)
    requires order { AreInOrder pages.old.items }
    requires gap { IsGap pages.old.items page count place }
    requires run { IsTrue (is_run page count) }
    requires rights { rights < 8 }
    requires room { vec_len pages.old + count ≤ vec_capacity pages.old }
    ensures order { AreInOrder pages.new.items }
    ensures after { space_of pages.new.items ≡ with_run (space_of pages.old.items) page count rights }
{
    for k in 0..count {
        let blank = Page {
            number: page + k,
            rights,
            bytes: [0; PAGE_SIZE],
        };
        match pages.push(blank) {
            Ok(()) => {}
            Err(_full) => unreachable!(),
        }
    }
    move_last(pages, place, count as usize);
}

/// Removes a run of pages.
pub fn remove_run(pages: &mut Vec<Page>, page: u64, count: u64)
    requires order { AreInOrder pages.old.items }
    requires end { page + count < 2 ^ 64 }
    ensures order { AreInOrder pages.new.items }
    ensures after { space_of pages.new.items ≡ without_run (space_of pages.old.items) page count }
{
    let end = page + count;
    pages.retain(|held| held.number < page || held.number >= end);
}

/// Gives the pages of a run that are there other rights.
pub fn protect_run(pages: &mut [Page], hints: &Hints, page: u64, count: u64, rights: u8)
    requires order { AreInOrder pages.old }
    requires end { page + count < 2 ^ 64 }
    requires rights { rights < 8 }
    ensures order { AreInOrder pages.new }
    ensures after { space_of pages.new ≡ protected (space_of pages.old) page count rights }
{
    for number in page..page + count {
        if let Some(place) = find(pages, hints, number) {
            pages[place].rights = rights;
        }
    }
}
