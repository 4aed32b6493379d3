//! The numbers of methods, and that of the members of a class.

ghost use Rattle.std.specs.Prelude.{◌≡◌, ◌+◌, ◌*◌, max, not, count_by, sum_by, if◌then◌else◌};
ghost use Rattle.class_limits.specs.Limits.{told};
ghost use Rattle.class_model.specs.Descriptor.{type_words, is_primitive_type, words_of};
ghost use Rattle.profile_check.specs.Members.{is_static};
ghost use Rattle.size_limits.specs.Numbers as numbers;
ghost use Rattle.size_limits.specs.Weights.{code_weight};

use crate::measure::{Measure, larger, of_some, sum_of};
use crate::weighing::weight;
use class_model::{BaseType, ClassDef, CodeDef, JType, MethodDef, Primitive, is_primitive};

/// The flag of a static method (JVMS 4.6).
const STATIC: u16 = 8;

/// Twice the fields and 1, or the methods and 4, whichever is more.
pub(crate) fn members_number(class: &ClassDef) -> u64
    ensures { result ≡ told (numbers.members_number class.now) }
{
    let fields = (class.fields.len() as u64).saturating_mul(2);
    let methods = class.methods.len() as u64;
    larger(fields.saturating_add(1), methods.saturating_add(4))
}

/// What gives the words of a type.
struct Words;

impl Measure<JType> for Words {
    ghost measure = { type_words };

    fn measure(&self, ty: &JType) -> u64 {
        match ty {
            JType {
                depth: 0,
                base: BaseType::Primitive(Primitive::Long | Primitive::Double),
            } => 2,
            _ => 1,
        }
    }
}

fn primitives(types: &[JType]) -> u64
    ensures { result ≡ told (count_by is_primitive_type types.now) }
{
    types.iter().filter(|ty| is_primitive(ty)).count() as u64
}

fn receiver(method: &MethodDef) -> u64
    ensures { result ≡ (if not (is_static method.now) then 1 else 0) }
{
    if method.flags & STATIC == 0 { 1 } else { 0 }
}

/// What gives the number of the parameters of a method: their words, the receiver counted, and one more for each that
/// is a primitive.
pub(crate) struct Params;

impl Measure<MethodDef> for Params {
    ghost measure = { λ method. numbers.parameters_number method };

    fn measure(&self, method: &MethodDef) -> u64 {
        let types = method.desc.params.as_slice();
        sum_of(&Words, types)
            .saturating_add(receiver(method))
            .saturating_add(primitives(types))
    }
}

/// What gives the number of the locals of code.
pub(crate) struct Locals;

impl Measure<CodeDef> for Locals {
    ghost measure = { λ code. numbers.locals_number code };

    fn measure(&self, code: &CodeDef) -> u64 {
        let (locals, stack) = (code.max_locals, code.max_stack);
        2 * u64::from(locals) + u64::from(stack) + 8
    }
}

impl Measure<MethodDef> for Locals {
    ghost measure = { λ method. numbers.in_code numbers.locals_number method };

    fn measure(&self, method: &MethodDef) -> u64 {
        of_some(self, &method.code)
    }
}

/// What gives the number of the stack of code.
pub(crate) struct Stacks;

impl Measure<CodeDef> for Stacks {
    ghost measure = { λ code. numbers.stack_number code };

    fn measure(&self, code: &CodeDef) -> u64 {
        let stack = code.max_stack;
        2 * u64::from(stack) + 16
    }
}

impl Measure<MethodDef> for Stacks {
    ghost measure = { λ method. numbers.in_code numbers.stack_number method };

    fn measure(&self, method: &MethodDef) -> u64 {
        of_some(self, &method.code)
    }
}

/// What weighs code.
pub(crate) struct Weights;

impl Measure<CodeDef> for Weights {
    ghost measure = { code_weight };

    fn measure(&self, code: &CodeDef) -> u64 {
        weight(code)
    }
}

impl Measure<MethodDef> for Weights {
    ghost measure = { λ method. numbers.in_code code_weight method };

    fn measure(&self, method: &MethodDef) -> u64 {
        of_some(self, &method.code)
    }
}
