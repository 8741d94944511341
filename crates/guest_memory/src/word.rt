ghost use Rattle.std.specs.Prelude.{◌≡◌, ℕ, ◌+◌, ◌^◌, ◌<◌, ◌≤◌, map, IfSome};
ghost use Rattle.rv_core.specs.Memory.{IsSize, byte_at, number_at, storable, stored, with_byte_at, written};
ghost use Rattle.guest_space.specs.Space.{memory_of};
ghost use Rattle.guest_memory.specs.Pages.{AreInOrder, label_of, space_of};
ghost use Rattle.guest_memory.specs.PageBytes.{bytes_number, with_number};

use crate::page::{PAGE_SIZE, Page, WRITE};
use crate::place::{Hints, find};

/// The number of `size` bytes at `at` in a page, little-endian.
#[inline(always)]
pub fn number_in(bytes: &[u8; PAGE_SIZE], at: usize, size: u8) -> u64
    requires size { IsSize size }
    requires within { at + size ≤ 4096 }
    ensures value { result ≡ bytes_number bytes.now at size }
    ensures small { result < 256 ^ size }
{
    match size {
        1 => u64::from(bytes[at]),
        2 => u64::from(u16::from_le_bytes([bytes[at], bytes[at + 1]])),
        4 => u64::from(u32::from_le_bytes([
            bytes[at],
            bytes[at + 1],
            bytes[at + 2],
            bytes[at + 3],
        ])),
        _ => u64::from_le_bytes([
            bytes[at],
            bytes[at + 1],
            bytes[at + 2],
            bytes[at + 3],
            bytes[at + 4],
            bytes[at + 5],
            bytes[at + 6],
            bytes[at + 7],
        ]),
    }
}

/// Puts the low two bytes of `value` at `at` into a page, little-endian.
#[inline(always)]
fn put_two(bytes: &mut [u8; PAGE_SIZE], at: usize, value: u64)
    requires { at + 2 ≤ 4096 }
    ensures { bytes.new ≡ with_number bytes.old at 2 value }
{
    bytes[at] = (value % 256) as u8;
    bytes[at + 1] = (value / 256 % 256) as u8;
}

/// Puts the low four bytes of `value` at `at` into a page, little-endian.
#[inline(always)]
fn put_four(bytes: &mut [u8; PAGE_SIZE], at: usize, value: u64)
    requires { at + 4 ≤ 4096 }
    ensures { bytes.new ≡ with_number bytes.old at 4 value }
{
    put_two(bytes, at, value);
    put_two(bytes, at + 2, value / 65_536);
}

/// Puts the low `size` bytes of `value` at `at` into a page, little-endian.
#[inline(always)]
fn put_in(bytes: &mut [u8; PAGE_SIZE], at: usize, size: u8, value: u64)
    requires size { IsSize size }
    requires within { at + size ≤ 4096 }
    ensures { bytes.new ≡ with_number bytes.old at size value }
{
    match size {
        1 => bytes[at] = (value % 256) as u8,
        2 => put_two(bytes, at, value),
        4 => put_four(bytes, at, value),
        _ => {
            put_four(bytes, at, value);
            put_four(bytes, at + 4, value / 0x1_0000_0000);
        }
    }
}

/// The byte at `at`, where it is there with the right.
fn byte(pages: &[Page], hints: &Hints, at: u64, right: u8) -> Option<u8>
    requires { AreInOrder pages.now }
    ensures { result ≡ byte_at (memory_of (space_of pages.now)) right at }
{
    match find(pages, hints, at / PAGE_SIZE as u64) {
        Some(place) => {
            let page = &pages[place];
            if page.rights & right == right {
                Some(page.bytes[(at % PAGE_SIZE as u64) as usize])
            } else {
                None
            }
        }
        None => None,
    }
}

/// The number of `size` bytes at `at`, little-endian, byte by byte: of an access that leaves its first page.
#[cold]
fn number_across(pages: &[Page], hints: &Hints, at: u64, size: u8, right: u8) -> Option<u64>
    requires order { AreInOrder pages.now }
    requires size { size ≤ 8 }
    ensures value { result ≡ number_at (memory_of (space_of pages.now)) right at size }
    ensures small { IfSome result (λ number. number < 256 ^ size) }
{
    if size == 0 {
        return Some(0);
    }
    let low = match byte(pages, hints, at, right) {
        Some(low) => low,
        None => return None,
    };
    match number_across(pages, hints, at.wrapping_add(1), size - 1, right) {
        Some(high) => Some(u64::from(low) + high * 256),
        None => None,
    }
}

/// The number of `size` bytes at `at`, little-endian, where each is there with the right.
#[inline(always)]
fn number_of(pages: &[Page], hints: &Hints, at: u64, size: u8, right: u8) -> Option<u64>
    requires order { AreInOrder pages.now }
    requires size { IsSize size }
    ensures value { result ≡ number_at (memory_of (space_of pages.now)) right at size }
    ensures small { IfSome result (λ number. number < 256 ^ size) }
{
    let offset = (at % PAGE_SIZE as u64) as usize;
    if offset + size as usize > PAGE_SIZE {
        return number_across(pages, hints, at, size, right);
    }
    match find(pages, hints, at / PAGE_SIZE as u64) {
        Some(place) => {
            let page = &pages[place];
            if page.rights & right == right {
                Some(number_in(&page.bytes, offset, size))
            } else {
                None
            }
        }
        None => None,
    }
}

/// The number of `size` bytes at `at`, as `number_of` gives it, with code of its own for each size.
#[inline(always)]
pub fn number_with(pages: &[Page], hints: &Hints, at: u64, size: u8, right: u8) -> Option<u64>
    requires order { AreInOrder pages.now }
    requires size { IsSize size }
    ensures value { result ≡ number_at (memory_of (space_of pages.now)) right at size }
    ensures small { IfSome result (λ number. number < 256 ^ size) }
{
    match size {
        1 => number_of(pages, hints, at, 1, right),
        2 => number_of(pages, hints, at, 2, right),
        4 => number_of(pages, hints, at, 4, right),
        _ => number_of(pages, hints, at, 8, right),
    }
}

/// Puts a byte at `at`, where a page is there.
fn put_byte(pages: &mut [Page], hints: &Hints, at: u64, byte: u8)
    requires { AreInOrder pages.old }
    ensures order { AreInOrder pages.new }
    ensures labels { map label_of pages.new ≡ map label_of pages.old }
    ensures after { memory_of (space_of pages.new) ≡ with_byte_at (memory_of (space_of pages.old)) at byte }
{
    if let Some(place) = find(pages, hints, at / PAGE_SIZE as u64) {
        pages[place].bytes[(at % PAGE_SIZE as u64) as usize] = byte;
    }
}

/// Puts the low `size` bytes of `value` at `at`, byte by byte: of an access that leaves its first page.
#[cold]
fn put_across(pages: &mut [Page], hints: &Hints, mut at: u64, size: u8, mut value: u64)
    requires { AreInOrder pages.old }
    ensures order { AreInOrder pages.new }
    ensures labels { map label_of pages.new ≡ map label_of pages.old }
    ensures after { memory_of (space_of pages.new) ≡ written (memory_of (space_of pages.old)) at size value }
{
    for _k in 0..size {
        put_byte(pages, hints, at, (value % 256) as u8);
        at = at.wrapping_add(1);
        value /= 256;
    }
}

/// Puts the low `size` bytes of `value` at `at`, little-endian; `false` where a byte isn't there or can't be
/// written, and then nothing changes.
#[inline(always)]
fn put_number(pages: &mut [Page], hints: &Hints, at: u64, size: u8, value: u64) -> bool
    requires order { AreInOrder pages.old }
    requires size { IsSize size }
    ensures order { AreInOrder pages.new }
    ensures labels { map label_of pages.new ≡ map label_of pages.old }
    ensures done { result ≡ storable (memory_of (space_of pages.old)) at size }
    ensures after { memory_of (space_of pages.new)
        ≡ stored (memory_of (space_of pages.old)) at size value }
{
    let offset = (at % PAGE_SIZE as u64) as usize;
    if offset + size as usize > PAGE_SIZE {
        if number_across(pages, hints, at, size, WRITE).is_none() {
            return false;
        }
        put_across(pages, hints, at, size, value);
        return true;
    }
    match find(pages, hints, at / PAGE_SIZE as u64) {
        Some(place) => {
            let page = &mut pages[place];
            if page.rights & WRITE == WRITE {
                put_in(&mut page.bytes, offset, size, value);
                true
            } else {
                false
            }
        }
        None => false,
    }
}

/// Puts the low `size` bytes of `value` at `at`, as `put_number` does, with code of its own for each size.
#[inline(always)]
pub fn put(pages: &mut [Page], hints: &Hints, at: u64, size: u8, value: u64) -> bool
    requires order { AreInOrder pages.old }
    requires size { IsSize size }
    ensures order { AreInOrder pages.new }
    ensures labels { map label_of pages.new ≡ map label_of pages.old }
    ensures done { result ≡ storable (memory_of (space_of pages.old)) at size }
    ensures after { memory_of (space_of pages.new)
        ≡ stored (memory_of (space_of pages.old)) at size value }
{
    match size {
        1 => put_number(pages, hints, at, 1, value),
        2 => put_number(pages, hints, at, 2, value),
        4 => put_number(pages, hints, at, 4, value),
        _ => put_number(pages, hints, at, 8, value),
    }
}
