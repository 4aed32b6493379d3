//! Linking a closed set of classes into a program, by one call: `link` (and `find_main`, the class that a run begins with). What it promises is `IsLinked`: in the world of the set, with
//! some tables, each number of the program leads to what the look-ups of the definitions find.
//!
//! - **Counts** (`before`): for each class what stands in front of its methods, its static fields and its fields of an object,
//!   so that a member's number or place is a sum of two.
//! - **Tables** (`tables`): types, texts and selectors by hash, calls and switches in a row. They only grow, and what has a number
//!   keeps it; so what is linked stays linked (`LinkedTo`, and the lemma `linked_grows`).
//! - **Code** (`linking`, `fields`, `calls`, `types`): one function a family of instructions, each over the set's own index.
//! - **Methods** (`methods`, `handlers`, `natives`): with the code of the classes in the set's order.
//! - **Rows of classes** (`class_rows`): what a class itself has for the selectors (`selects`) and its initializer (`starts`) are found
//!   once; a row gathers them, and the fields of a fresh object (`cells`), along the class and its superclasses (`upwards`). The classes
//!   that it is a subtype of are picked from all (`picked`).
//! - **Rows of types** (`type_rows`): each with the number of its base class, so that types are compared by numbers.
//! - **The whole** (`assembly`, `known`): the parts are put together by one lemma (`linked`).
//! - **The world** (`WorldOf`): what the numbers stand for. A number past the last class, type or text stands for a name or text that
//!   none has (`past`).
//!
//! A closed set gives what linking needs of each instruction (the lemma `ready`).
#![tactic(auto)]

mod assembly;
mod before;
mod calls;
mod cells;
mod class_rows;
mod fields;
mod handlers;
mod keys;
mod kinds;
mod known;
mod linking;
mod mains;
mod methods;
mod natives;
mod picked;
mod plain;
mod selects;
mod starts;
mod tables;
mod type_rows;
mod types;
mod upwards;

pub use assembly::link;
pub use mains::find_main;
