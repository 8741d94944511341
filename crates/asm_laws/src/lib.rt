//! What the assembler's definitions mean on the machine and to the loader: laws, with no code of their own.
#![tactic(auto)]

mod laws;

pub use laws::{
    assembled_files_are_loaded, jumps_come_to_labels, la_leaves_its_address, labels_lie_within,
    labels_within_reach, li_leaves_its_number,
};
