ghost use Rattle.std.specs.Prelude.{◌≡◌, ◌≢◌, IfOk, OnErr};
ghost use Rattle.bas_edge.specs.Faults.{HasCause};
ghost use Rattle.bascule_top.specs.Assembly.{SaysOfAssembly};

use bas_edge::{EdgeError, Fetched, Shelf, fetch};
use bas_items::Items;
use bas_outcomes::{Outcome, Report};
use rv_asm::{AsmError, assemble};
use std::alloc::{AllocError, Global};

/// The most bytes of an assembly text.
const LONGEST_TEXT: u64 = 1_048_576;

/// A file's name as an outcome holds it.
fn named(alloc: Global, name: &str) -> Result<Items<u8>, AllocError>
    ensures { IfOk result (λ bytes. bytes ≡ name.now) }
{
    Items::from_slice(alloc, name.as_bytes())
}

/// Puts the file that an assembly text stands for in the place of the file `file`. After an `Err` the files are as
/// before.
pub fn assemble_file<F: Shelf>(
    alloc: Global,
    text: &str,
    file: &str,
    shelf: &mut F,
) -> Result<Outcome, EdgeError>
    ensures says { IfOk result (λ outcome. SaysOfAssembly outcome text.now file.now (F.files shelf.old) (F.files shelf.new)) }
    ensures own { IfOk result (λ outcome. outcome ≢ Outcome.ShelfFault) }
    ensures same { OnErr result (F.files shelf.new ≡ F.files shelf.old) }
    ensures cause { HasCause EdgeError.Failed (F.fault_count shelf.old) (F.fault_count shelf.new) result }
{
    let source = match fetch(alloc, shelf, text, LONGEST_TEXT)? {
        Fetched::Bytes(source) => source,
        Fetched::Absent => return Ok(Outcome::NoFile(named(alloc, text)?)),
        Fetched::Large(_) => return Ok(Outcome::Large(named(alloc, text)?)),
    };
    let bytes = match assemble(alloc, source.as_slice()) {
        Ok(bytes) => bytes,
        Err(AsmError::Line(line, cause)) => return Ok(Outcome::BadText(line, cause)),
        Err(AsmError::Memory) => return Err(EdgeError::Memory),
    };
    shelf.replace(file, bytes.as_slice())?;
    Ok(Outcome::Done(Report::Assembled(bytes.len() as u64)))
}
