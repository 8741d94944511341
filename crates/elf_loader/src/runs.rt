ghost use Rattle.std.specs.Prelude.{◌≡◌, ◌^◌, ◌<◌, All, IfOk, map};
ghost use Rattle.guest_space.specs.Regions.{merged};
ghost use Rattle.elf_loader.specs.Steps.{extent_of_page};

use crate::pages::Page;
use bas_items::Items;
use guest_space::Extent;
use std::alloc::{AllocError, Global};

/// Where a program lies in memory.
#[derive(Debug, Drop)]
pub struct Layout {
    /// The address of the first instruction.
    pub entry: u64,
    /// Runs of pages, rising.
    pub runs: Items<Extent>,
    /// The address after the last page.
    pub end: u64,
}

/// The runs of rising pages: adjacent pages with equal rights are one run.
pub fn runs(alloc: Global, pages: &[Page]) -> Result<Items<Extent>, AllocError>
    requires { All (λ page. page.number < 2 ^ 53) pages.now }
    ensures { IfOk result (λ runs. runs ≡ merged (map extent_of_page pages.now)) }
{
    let mut runs = Items::new(alloc);
    let Some((first, higher)) = pages.split_first() else {
        return Ok(runs);
    };
    let mut run = extent_of(first);
    for page in higher {
        if run.page + run.count == page.number && run.rights == page.rights {
            run.count += 1;
        } else {
            runs.push(run)?;
            run = extent_of(page);
        }
    }
    runs.push(run)?;
    Ok(runs)
}

fn extent_of(page: &Page) -> Extent
    ensures { result ≡ extent_of_page page.now }
{
    Extent {
        page: page.number,
        count: 1,
        rights: page.rights,
    }
}
