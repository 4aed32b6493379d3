//! Loading: the files of a folder as a set of classes, or the first refusal.
#![tactic(auto)]

mod base;
mod decode;
mod file;
mod laws;
mod load;
mod profile;
mod set;
mod stop;
mod types;

pub use file::File;
pub use laws::one_answer;
pub use load::load_set;
pub use stop::LoadStop;

#[cfg(test)]
mod tests;
