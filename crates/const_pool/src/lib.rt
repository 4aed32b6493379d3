//! The constant pool of a class file (JVMS 4.4), both ways.
#![tactic(auto)]

mod decode;
mod editor;
mod encode;
mod entry;
mod pool;
mod refer;

pub use class_input::BadClass as PoolBad;
pub use editor::{PoolEditor, PoolStop};
pub use entry::Entry;
pub use modified_utf8::{TextStop, text_units, units_text};
pub use pool::Pool;

#[cfg(test)]
mod tests;
