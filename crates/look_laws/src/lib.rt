//! Laws that bring together the look-ups in a set of classes by name, as a machine asks them, and those by number.
//!
//! Both families go up the same classes, so each law is an equation. Resolution of methods is by number in both, and needs
//! none.
#![tactic(auto)]

mod laws;

pub use laws::{
    field_places_by_number, fields_by_number, initializers_by_number, layouts_by_superclass,
    main_by_number, selection_by_number, static_places_by_number, subtypes_by_number,
    superclasses_by_number,
};
