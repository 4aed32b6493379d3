//! Descriptors as types (JVMS 4.3).

ghost use Rattle.std.specs.Prelude.{◌≡◌, ℕ, MatchResult, IfOk};
ghost use Rattle.class_model.specs.declared.descriptor.DescStop.TheVariants.{Memory};
ghost use Rattle.class_model.specs.Descriptor.{SpellsField, SpellsMethod, IsLongest};
ghost use Rattle.class_model.specs.Reading.{field_of, method_of};
ghost use Rattle.class_model.specs.Answer.{Agrees};

use crate::parser::Parser;
use crate::types::{JType, MethodDesc};
use std::alloc::{AllocError, AllocFailed, Global};
use thiserror::Error;

/// Why a text gave no type.
#[derive(Clone, Copy, Debug, PartialEq, Eq, Error)]
pub enum DescStop {
    /// The text is not in the grammar of JVMS 4.3. The number is that of the units of its longest
    /// prefix that begins some text of the grammar.
    #[error("no descriptor from unit {0} on")]
    Bad(usize),
    #[error("out of memory")]
    Memory,
}

impl From<AllocError> for DescStop {
    ghost from_gives = { λ _ e. e ≡ Memory };

    fn from(_: AllocError) -> DescStop {
        DescStop::Memory
    }
}

impl<T: Drop> From<AllocFailed<T>> for DescStop {
    ghost from_gives = { λ _ e. e ≡ Memory };

    fn from(_: AllocFailed<T>) -> DescStop {
        DescStop::Memory
    }
}

/// The type that a field descriptor spells (JVMS 4.3.2): at most 255 dimensions, and in a class name
/// one or more units other than `;` and `[`.
#[tactic(auto, using(crate::proofs::Laws::type_clauses))]
pub fn parse_type(alloc: Global, text: &[u16]) -> Result<JType, DescStop>
    ensures ok { IfOk result (λ ty. SpellsField text.now ty) }
    ensures only { (ty : JType) → SpellsField text.now ty → MatchResult result (λ read. read ≡ ty) (λ stop. stop ≡ DescStop.Memory) }
    ensures bad { (place : ℕ) → result ≡ Err (DescStop.Bad place) → ((ty : JType) → SpellsField text.now ty → ⊥) × IsLongest SpellsField text.now place }
    ensures reads { Agrees result (field_of text.now) }
{
    Parser::new(text).whole_type(alloc)
}

/// The parameters and the result that a method descriptor spells (JVMS 4.3.3), with types as
/// `parse_type` takes them, however many words the parameters take.
#[tactic(auto, using(crate::proofs::Laws::method_clauses))]
pub fn parse_desc(alloc: Global, text: &[u16]) -> Result<MethodDesc, DescStop>
    ensures ok { IfOk result (λ desc. SpellsMethod text.now desc) }
    ensures only { (desc : MethodDesc) → SpellsMethod text.now desc → MatchResult result (λ read. read ≡ desc) (λ stop. stop ≡ DescStop.Memory) }
    ensures bad { (place : ℕ) → result ≡ Err (DescStop.Bad place) → ((desc : MethodDesc) → SpellsMethod text.now desc → ⊥) × IsLongest SpellsMethod text.now place }
    ensures reads { Agrees result (method_of text.now) }
{
    Parser::new(text).whole_method(alloc)
}
