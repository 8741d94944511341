ghost use Rattle.std.specs.Prelude.{◌≡◌, ◌≢◌, ◌⊎◌, true};
ghost use Rattle.bas_edge.specs.Faults.{Rose};
ghost use Rattle.bas_outcomes.specs.declared.outcome.Outcome.TheVariants.{Large, NoFile, OutOfMemory};
ghost use Rattle.bascule_top.specs.Commands.{is_name};
ghost use Rattle.bascule_top.specs.Copying.{GetSays, PutSays};

use abi_calls::Host;
use bas_edge::Shelf;
use bas_items::Items;
use bas_outcomes::{Outcome, Report};
use file_commands::{Copied, CopyError, get_file, put_file};
use std::alloc::Global;

/// There is no file of the name.
fn no_file(alloc: Global, name: &str) -> Outcome
    ensures { (result ≡ NoFile name.now) ⊎ (result ≡ OutOfMemory) }
{
    match Items::from_slice(alloc, name.as_bytes()) {
        Ok(name) => Outcome::NoFile(name),
        Err(_) => Outcome::OutOfMemory,
    }
}

/// The file of the name is past its limit.
fn too_large(alloc: Global, name: &str) -> Outcome
    ensures { (result ≡ Large name.now) ⊎ (result ≡ OutOfMemory) }
{
    match Items::from_slice(alloc, name.as_bytes()) {
        Ok(name) => Outcome::Large(name),
        Err(_) => Outcome::OutOfMemory,
    }
}

/// Copies the user's file to the host's file of the name.
pub fn put<H: Host, F: Shelf>(
    alloc: Global,
    file: &str,
    name: &str,
    host: &mut H,
    shelf: &mut F,
) -> Outcome
    requires named { is_name name.now ≡ true }
    ensures says { PutSays result file.now name.now (F.files shelf.old) (H.told host.old) (H.told host.new) }
    ensures own { result ≢ Outcome.AlreadyUsed }
    ensures same { F.files shelf.new ≡ F.files shelf.old }
    ensures fault { result ≡ Outcome.HostFault → Rose (H.fault_count host.old) (H.fault_count host.new) }
    ensures shelf_fault { result ≡ Outcome.ShelfFault → Rose (F.fault_count shelf.old) (F.fault_count shelf.new) }
{
    match put_file(alloc, file, name.as_bytes(), host, shelf) {
        Ok(Copied::Bytes(count)) => Outcome::Done(Report::Put(count)),
        Ok(Copied::Absent) => no_file(alloc, file),
        Ok(Copied::Large) => too_large(alloc, file),
        Err(CopyError::Host) => Outcome::HostFault,
        Err(CopyError::Shelf) => Outcome::ShelfFault,
        Err(CopyError::Memory) => Outcome::OutOfMemory,
    }
}

/// Copies the host's file of the name to the user's file.
pub fn get<H: Host, F: Shelf>(
    alloc: Global,
    name: &str,
    file: &str,
    host: &mut H,
    shelf: &mut F,
) -> Outcome
    requires named { is_name name.now ≡ true }
    ensures says { GetSays result name.now file.now (H.told host.old) (F.files shelf.old) (F.files shelf.new) }
    ensures own { result ≢ Outcome.AlreadyUsed }
    ensures same { H.told host.new ≡ H.told host.old }
    ensures fault { result ≡ Outcome.HostFault → Rose (H.fault_count host.old) (H.fault_count host.new) }
    ensures shelf_fault { result ≡ Outcome.ShelfFault → Rose (F.fault_count shelf.old) (F.fault_count shelf.new) }
{
    match get_file(alloc, name.as_bytes(), file, host, shelf) {
        Ok(Copied::Bytes(count)) => Outcome::Done(Report::Got(count)),
        Ok(Copied::Absent) => no_file(alloc, name),
        Ok(Copied::Large) => unreachable!(),
        Err(CopyError::Host) => Outcome::HostFault,
        Err(CopyError::Shelf) => Outcome::ShelfFault,
        Err(CopyError::Memory) => Outcome::OutOfMemory,
    }
}
