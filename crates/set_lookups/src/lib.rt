//! Classes by number and by name, without cycles: subtypes, resolution and selection.
#![tactic(auto)]

mod build;
mod counts;
mod cycles;
mod duplicates;
mod fault;
mod hierarchy;
mod ids;
mod level_build;
mod levels;
mod links;
mod member_key;
mod member_table;
mod members;
mod missing;
mod near;
mod needs;
mod ranks;
mod row;

pub use build::link_classes;
pub use counts::are_counted;
pub use fault::HierarchyFault;
pub use hierarchy::{ClassTest, Hierarchy};
pub use ids::{ClassId, MethodId};

#[cfg(test)]
mod tests;
