//! What Bascule takes from and gives to the outside: bytes in, bytes out, and files by name.
//! Each trait has a written meaning and a count of faults, and forms in memory that keep it.
#![tactic(auto)]

mod byte_sink;
mod byte_source;
mod calm_shelf;
mod calm_sink;
mod calm_source;
mod calm_store;
mod errors;
mod failing;
mod failures;
mod fetched;
mod map_shelf;
mod map_store;
mod shelf;
mod sink;
mod source;
mod store;

pub use byte_sink::ByteSink;
pub use byte_source::ByteSource;
pub use calm_shelf::CalmShelf;
pub use calm_sink::CalmSink;
pub use calm_source::CalmSource;
pub use calm_store::CalmStore;
pub use errors::{EdgeError, Failed, Memory};
pub use failing::Failing;
pub use fetched::{Fetched, fetch};
pub use map_shelf::MapShelf;
pub use map_store::MapStore;
pub use shelf::Shelf;
pub use sink::Sink;
pub use source::Source;
pub use store::Store;
