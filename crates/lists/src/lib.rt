//! Lists and texts that contracts see as what they hold: the base of every other crate.
#![tactic(auto)]

mod name;
mod path;
mod plain;
mod seq;
mod texts;

pub use name::Name;
pub use path::Path;
pub use plain::{Plain, Same};
pub use seq::Seq;

/// A list of bytes.
pub type Bytes = Seq<u8>;

/// A list of UTF-16 units.
pub type Units = Seq<u16>;
