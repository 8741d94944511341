ghost use Rattle.std.specs.Prelude.{◌≡◌, ◌+◌, ◌≤◌, length, IfNone};
ghost use Rattle.guest_space.specs.Space.{bytes_from, memory_of};
ghost use Rattle.guest_space.specs.Access.{with_bytes};
ghost use Rattle.guest_memory.specs.Pages.{AreInOrder, AreThere, space_of};
ghost use Rattle.guest_memory.specs.PageBytes.{with_part};
ghost use Rattle.guest_memory.specs.Refusals.{access_refusal};

use crate::error::PageError;
use crate::page::{PAGE_SIZE, Page};
use crate::place::{Hints, find};

/// Why `count` bytes at `at` can't be accessed: the first page that isn't there or lacks the right.
pub fn refused_access(
    pages: &[Page],
    hints: &Hints,
    at: u64,
    count: usize,
    right: u8,
) -> Option<PageError>
    requires { AreInOrder pages.now }
    ensures cause { result ≡ access_refusal (memory_of (space_of pages.now)) right at count }
    ensures there { IfNone result (AreThere (space_of pages.now) at count) }
{
    let mut number = at / PAGE_SIZE as u64;
    let mut offset = (at % PAGE_SIZE as u64) as usize;
    let mut left = count;
    while left > 0 {
        let place = match find(pages, hints, number) {
            Some(place) => place,
            None => return Some(PageError::Unmapped(number)),
        };
        if pages[place].rights & right != right {
            return Some(PageError::Denied(number));
        }
        left = left.saturating_sub(PAGE_SIZE - offset);
        offset = 0;
        number += 1;
    }
    None
}

/// Copies the bytes at `at` into a buffer.
pub fn copy_out(pages: &[Page], hints: &Hints, at: u64, buf: &mut [u8])
    requires order { AreInOrder pages.now }
    requires there { AreThere (space_of pages.now) at (length buf.old) }
    ensures { buf.new ≡ bytes_from (memory_of (space_of pages.now)) at (length buf.old) }
{
    let mut done = 0;
    while done < buf.len() {
        let from = at + done as u64;
        let offset = (from % PAGE_SIZE as u64) as usize;
        let count = (PAGE_SIZE - offset).min(buf.len() - done);
        match find(pages, hints, from / PAGE_SIZE as u64) {
            Some(place) => {
                let page = &pages[place];
                let bytes = &page.bytes[..];
                buf[done..done + count].copy_from_slice(&bytes[offset..offset + count]);
            }
            None => unreachable!(),
        }
        done += count;
    }
}

/// Puts bytes into a page at an offset.
fn put_part(page: &mut [u8; PAGE_SIZE], offset: usize, part: &[u8])
    requires { offset + length part.now ≤ 4096 }
    ensures { page.new ≡ with_part page.old offset part.now }
{
    page[offset..offset + part.len()].copy_from_slice(part);
}

/// Puts bytes at `at`.
pub fn copy_in(pages: &mut [Page], hints: &Hints, at: u64, bytes: &[u8])
    requires order { AreInOrder pages.old }
    requires there { AreThere (space_of pages.old) at (length bytes.now) }
    ensures order { AreInOrder pages.new }
    ensures after { memory_of (space_of pages.new)
        ≡ with_bytes (memory_of (space_of pages.old)) at bytes.now }
{
    let mut done = 0;
    while done < bytes.len() {
        let from = at + done as u64;
        let offset = (from % PAGE_SIZE as u64) as usize;
        let count = (PAGE_SIZE - offset).min(bytes.len() - done);
        if let Some(place) = find(pages, hints, from / PAGE_SIZE as u64) {
            let page = &mut pages[place];
            put_part(&mut page.bytes, offset, &bytes[done..done + count]);
        }
        done += count;
    }
}
