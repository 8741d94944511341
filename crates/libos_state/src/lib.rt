//! What the library OS keeps: its records of processes, threads and open descriptions, and what a service in progress
//! keeps between two calls of the host's interface; how it begins, the call that it makes next, and whether it fits.
#![tactic(auto)]

mod begun;
mod calls;
mod cont;
mod file_calls;
mod fitting;
mod kept;
mod laws;
mod notes;
mod page_calls;
mod start_calls;
mod state;
mod step;

pub use begun::process_by_pid;
pub use cont::{Cont, Event, Stage};
pub use file_calls::PIECE;
pub use kept::{
    A0, description_by_id, description_of, descriptor_by_number, first_items, has_open, items_from,
    number_at, process_by_handle, thread_by_handle, thread_by_tid, upcall_of,
};
pub use laws::{file_by_rules, fits_is_cut, tests_decide};
pub use notes::{Description, DescriptorNote, Kind, ProcessNote, Queued, ThreadNote};
pub use page_calls::{BRK, is_brk};
pub use start_calls::{STACK_PAGE, run_in};
pub use state::{Boot, LibOs};
pub use step::{Change, Step};
