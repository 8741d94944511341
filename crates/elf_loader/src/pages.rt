ghost use Rattle.std.specs.Prelude.{◌≡◌, ◌+◌, ◌^◌, ◌<◌, ◌==◌, ◌&&◌, ◌%◌, ℕ, All, List, MatchResult, length, true};
ghost use Rattle.elf_loader.specs.Fields.{e_entry};
ghost use Rattle.elf_loader.specs.Segments.{is_segment, last_page, page_rights, end_page, segment_rights, touches};
ghost use Rattle.elf_loader.specs.Steps.{Adds, Overflows, touched_pages};
ghost use Rattle.elf_loader.specs.Refusal.{is_runnable, pages};

use crate::ElfError;
use crate::file::ElfFile;
use crate::header::{PAGE_SIZE, ProgramHeader};
use arrayvec::ArrayVec;

/// The most pages of a program.
const MOST_PAGES: usize = 1008;

const RUN: u8 = 4;

/// A page by its number, with its rights: the sum of 1 to read, 2 to write and 4 to run.
#[derive(Clone, Copy, Default)]
pub struct Page {
    pub number: u64,
    pub rights: u8,
}

/// Pages, rising.
type Table = ArrayVec<Page, MOST_PAGES>;

impl ElfFile<'_> {
    /// The touched pages with their rights, or a refusal where there are more than 1,008.
    pub fn pages(&self) -> Result<Table, ElfError>
        ensures { MatchResult result
            (λ table. table.items ≡ touched_pages self.now.bytes.now)
            (λ error. (error ≡ ElfError.Big) × (1008 < length (pages self.now.bytes.now))) }
    {
        let mut table = ArrayVec::new();
        for i in 0..self.count {
            let header = self.header(i);
            if header.is_segment() {
                add_pages(&mut table, &header)?;
            }
        }
        Ok(table)
    }

    /// Whether the program can begin at its entry: a multiple of 4, in a page with the right to run.
    pub fn has_entry(&self, pages: &[Page]) -> bool
        requires { pages.now ≡ touched_pages self.now.bytes.now }
        ensures { result ≡ (e_entry self.now.bytes.now % 4 == 0
            && is_runnable self.now.bytes.now (e_entry self.now.bytes.now)) }
    {
        let entry = self.entry();
        entry % 4 == 0 && is_runnable(pages, entry)
    }
}

/// The page after the last of a file's touched pages, or 0.
pub fn end_page(pages: &[Page]) -> u64
    requires { All (λ page. page.number < 2 ^ 53) pages.now }
    ensures { (file : List ℕ) → pages.now ≡ touched_pages file → result ≡ end_page file }
{
    match pages.last() {
        Some(page) => page.number + 1,
        None => 0,
    }
}

fn is_runnable(pages: &[Page], address: u64) -> bool
    ensures { (file : List ℕ) → pages.now ≡ touched_pages file → result ≡ is_runnable file address }
{
    page_rights(pages, address / PAGE_SIZE) & RUN != 0
}

/// The rights of the page of that number, of a file's touched pages: the sum of 1 to read, 2 to write and 4 to
/// run, and 0 where it isn't there.
fn page_rights(pages: &[Page], number: u64) -> u8
    ensures { (file : List ℕ) → pages.now ≡ touched_pages file → result ≡ page_rights file number }
{
    match pages.binary_search_by_key(&number, |page| page.number) {
        Ok(at) => pages[at].rights,
        Err(_) => 0,
    }
}

/// Adds the pages of a segment, unless there are more than 1,008 then.
fn add_pages(table: &mut Table, header: &ProgramHeader) -> Result<(), ElfError>
    requires { is_segment header.now ≡ true }
    ensures { MatchResult result
        (λ _. Adds (touches header.now) (segment_rights header.now) (last_page header.now + 1)
        table.old.items table.new.items)
        (λ error. (error ≡ ElfError.Big)
        × Overflows (touches header.now) (last_page header.now + 1) table.old.items) }
{
    let rights = header.rights();
    for number in header.first_page()..header.last_page() + 1 {
        add_page(table, number, rights)?;
    }
    Ok(())
}

/// Adds rights to a page, which is put in its place if it isn't there, unless there are 1,008 already.
fn add_page(table: &mut Table, number: u64, rights: u8) -> Result<(), ElfError>
    ensures { MatchResult result
        (λ _. Adds (λ q. q == number) rights (number + 1) table.old.items table.new.items)
        (λ error. (error ≡ ElfError.Big)
        × Overflows (λ q. q == number) (number + 1) table.old.items) }
{
    match table
        .as_slice()
        .binary_search_by_key(&number, |page| page.number)
    {
        Ok(at) => table.as_mut_slice()[at].rights |= rights,
        Err(at) => {
            let page = Page { number, rights };
            if table.try_insert(at, page).is_err() {
                return Err(ElfError::Big);
            }
        }
    }
    Ok(())
}
