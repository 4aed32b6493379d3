//! The written set of one class of the first form loads: laws of the definitions.
#![tactic(auto)]

mod laws;

pub use laws::{
    neighbours_change_places, user_names_are_apart, written_base_loads, written_set_loads,
};
