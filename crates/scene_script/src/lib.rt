//! What programs have in common that play a script of scenes over a host in memory: the words of a script, what a scene
//! begins with, the forms in memory of which chosen calls fail, what a host leaves, and how that is printed.
//!
//! Lines that say what there is:
//!
//! - `file NAME BYTES` is a file of the host.
//! - `input BYTES` is the console's input.
//! - `fail EDGE NUMBER`: the call of this number of the input, output, errors, store, shelf or notes fails.
//!
//! A word stands for bytes: pieces between `+`, each an escaped text, or a count, `*` and an escaped text.
#![tactic(auto)]

mod forms;
mod leaving;
mod playing;
mod printing;
mod start;
mod words;

pub use forms::{Holds, Shows, shelf_of, sink_of};
pub use leaving::{Left, Memories, files_left, host_over, left_by, memories_of};
pub use playing::{Play, Played, play_each};
pub use printing::{add_bytes, add_changes, add_escaped, add_left, add_line};
pub use start::{Edge, Failure, Files, Start, names_of};
pub use words::{bytes_of, counted, file_in, parted};
