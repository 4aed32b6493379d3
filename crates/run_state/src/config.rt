//! The lists of sources and sinks.

ghost use Rattle.std.proofs.Common.{rules};

use crate::listed::Listed;
use class_model::MethodDesc;
use lists::{Name, Plain};

/// A method whose result is marked with a tag as it returns (this project's own). Names are in the form of the
/// class file, with `/`.
#[derive(Clone, Debug, PartialEq, Eq, Drop)]
pub struct Source {
    pub class: Name,
    pub name: Name,
    pub desc: MethodDesc,
    pub tag: i32,
}

/// A method that reports the tag of each argument as it is entered (this project's own).
#[derive(Clone, Debug, PartialEq, Eq, Drop)]
pub struct Sink {
    pub class: Name,
    pub name: Name,
    pub desc: MethodDesc,
}

/// The lists of sources and sinks, each of at most 65,535 entries. A sink's number is its place in its list, from 0.
#[derive(Clone, Debug, PartialEq, Eq, Drop)]
pub struct Config {
    pub sources: Listed<Source>,
    pub sinks: Listed<Sink>,
}

impl Plain for Source {
    ghost copies = { Prim.search rules };
}

impl Plain for Sink {
    ghost copies = { Prim.search rules };
}

impl Plain for Config {
    ghost copies = { Prim.search rules };
}
