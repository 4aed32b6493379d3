//! Classes, and types by their descriptors (JVMS 4.3, 4.4.1).

ghost use Rattle.std.specs.Prelude.{◌≡◌, IfOk};
ghost use Rattle.pool_names.specs.Adding.{Puts};
ghost use Rattle.pool_names.specs.Fits.{FitsText, FitsType, FitsFieldType, FitsDesc};
ghost use Rattle.pool_names.specs.Spelling as spelling;

use crate::text::put_text;
use crate::writer::PoolWriter;
use class_model::{BaseType, JType, MethodDesc, print_desc, print_type};
use const_pool::{Entry, PoolStop};
use lists::Name;
use std::alloc::{AllocError, Global};

/// The index of a class, by its name.
#[tactic(auto, unfolding(crate::specs::Spelling::spell_class))]
pub fn put_class(alloc: Global, pool: &mut PoolWriter, name: &Name) -> Result<u16, PoolStop>
    requires { FitsText name.now }
    ensures { Puts result pool.new (spelling.spell_class name.now pool.old) }
{
    let text = put_text(alloc, pool, name.as_units())?;
    pool.add(Entry::Class(text))
}

/// The name that the constant pool has for a class or an array, an array's being its descriptor.
fn class_text(alloc: Global, ty: &JType) -> Result<Name, AllocError>
    ensures { IfOk result (λ name. name ≡ spelling.class_text ty.now) }
{
    match &ty.base {
        BaseType::Class(name) if ty.depth == 0 => name.clone(),
        _ => print_type(alloc, ty),
    }
}

/// The index of a class or an array as a type.
#[tactic(auto, unfolding(crate::specs::Spelling::spell_type))]
pub fn put_type(alloc: Global, pool: &mut PoolWriter, ty: &JType) -> Result<u16, PoolStop>
    requires { FitsType ty.now }
    ensures { Puts result pool.new (spelling.spell_type ty.now pool.old) }
{
    let name = class_text(alloc, ty)?;
    put_class(alloc, pool, &name)
}

/// The index of the descriptor of a field's type.
#[tactic(auto, unfolding(crate::specs::Spelling::spell_field_type))]
pub fn put_field_type(alloc: Global, pool: &mut PoolWriter, ty: &JType) -> Result<u16, PoolStop>
    requires { FitsFieldType ty.now }
    ensures { Puts result pool.new (spelling.spell_field_type ty.now pool.old) }
{
    let descriptor = print_type(alloc, ty)?;
    put_text(alloc, pool, descriptor.as_units())
}

/// The index of the descriptor of a method.
#[tactic(auto, unfolding(crate::specs::Spelling::spell_desc))]
pub fn put_desc(alloc: Global, pool: &mut PoolWriter, desc: &MethodDesc) -> Result<u16, PoolStop>
    requires { FitsDesc desc.now }
    ensures { Puts result pool.new (spelling.spell_desc desc.now pool.old) }
{
    let descriptor = print_desc(alloc, desc)?;
    put_text(alloc, pool, descriptor.as_units())
}
