ghost use Rattle.std.specs.Prelude.{◌≡◌, ℕ, ◌+◌, ◌*◌, ◌^◌, ◌<◌, ◌≤◌, length, nat_le, sum_by, true, [], ◌∷◌, ◌++◌, IfOk, OnOk};
ghost use Rattle.std.specs.List.{list_all, flat_map};
ghost use Rattle.mono_model.specs.Starting as starting;

use bas_items::Items;
use std::alloc::{AllocError, Global};

/// The address behind the stack.
const STACK_END: u64 = 1 << 38;

/// The bytes of a pointer or a count.
const WORD: usize = 8;

/// How many bytes the argument block has.
#[tactic(auto, using(crate::proofs::Blocks::block_steps))]
fn size_of_block(args: &[Items<u8>]) -> usize
    requires few { length args.now ≤ 16 }
    requires short { list_all (λ arg. nat_le (length arg) 80) args.now ≡ true }
    ensures { result ≡ starting.block_size args.now }
{
    let mut size = WORD * (args.len() + 3);
    for arg in args {
        size += arg.len() + 1;
    }
    size
}

/// Where the argument block stands.
#[tactic(auto, using(crate::proofs::Blocks::block_steps))]
pub fn block_address(args: &[Items<u8>]) -> u64
    requires few { length args.now ≤ 16 }
    requires short { list_all (λ arg. nat_le (length arg) 80) args.now ≡ true }
    ensures { result ≡ starting.stack_pointer args.now }
{
    (STACK_END - size_of_block(args) as u64) / 16 * 16
}

/// Appends a pointer to each argument, of which the first stands at an address.
#[tactic(auto, using(crate::proofs::Blocks::block_steps))]
fn push_pointers(block: &mut Items<u8>, args: &[Items<u8>], first: u64) -> Result<(), AllocError>
    requires { first + sum_by (λ arg. length arg + 1) args.now < 2 ^ 64 }
    ensures { OnOk result (block.new ≡ block.old ++ starting.pointers first args.now) }
{
    let mut at = first;
    for arg in args {
        block.extend_from_slice(&at.to_le_bytes())?;
        at += arg.len() as u64 + 1;
    }
    Ok(())
}

/// Appends the arguments, each with a zero byte.
#[tactic(auto, using(crate::proofs::Blocks::block_steps))]
fn push_texts(block: &mut Items<u8>, args: &[Items<u8>]) -> Result<(), AllocError>
    ensures { OnOk result (block.new ≡ block.old ++ flat_map (λ arg. arg ++ 0 ∷ []) args.now) }
{
    for arg in args {
        block.extend_from_slice(arg.as_slice())?;
        block.push(0)?;
    }
    Ok(())
}

/// The argument block: the count, the pointers, two zero words, and the arguments with a zero byte each.
#[tactic(auto, using(crate::proofs::Blocks::block_steps))]
pub fn block(alloc: Global, args: &[Items<u8>]) -> Result<Items<u8>, AllocError>
    requires few { length args.now ≤ 16 }
    requires short { list_all (λ arg. nat_le (length arg) 80) args.now ≡ true }
    ensures { IfOk result (λ bytes. bytes ≡ starting.argument_block args.now) }
{
    let first = block_address(args) + (WORD * (args.len() + 3)) as u64;
    let mut block = Items::from_slice(alloc, &(args.len() as u64).to_le_bytes())?;
    push_pointers(&mut block, args, first)?;
    block.extend_from_slice(&[0; 2 * WORD])?;
    push_texts(&mut block, args)?;
    Ok(block)
}
