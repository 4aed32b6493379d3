//! Fields and methods (JVMS 4.4.2).

ghost use Rattle.std.specs.Prelude.{◌≡◌};
ghost use Rattle.pool_names.specs.Adding.{Puts};
ghost use Rattle.pool_names.specs.Fits.{FitsText, FitsField, FitsMethod};
ghost use Rattle.pool_names.specs.Spelling as spelling;

use crate::text::put_text;
use crate::types::{put_class, put_type};
use crate::writer::PoolWriter;
use class_model::{FieldRef, MethodRef, print_desc, print_type};
use const_pool::{Entry, PoolStop};
use lists::Name;
use std::alloc::Global;

/// The index of a name with a descriptor (JVMS 4.4.6).
#[tactic(auto, unfolding(crate::specs::Spelling::spell_name_and_type))]
pub fn put_name_and_type(
    alloc: Global,
    pool: &mut PoolWriter,
    name: &Name,
    descriptor: &Name,
) -> Result<u16, PoolStop>
    requires name { FitsText name.now }
    requires descriptor { FitsText descriptor.now }
    ensures { Puts result pool.new (spelling.spell_name_and_type name.now descriptor.now pool.old) }
{
    let name = put_text(alloc, pool, name.as_units())?;
    let descriptor = put_text(alloc, pool, descriptor.as_units())?;
    pool.add(Entry::NameAndType(name, descriptor))
}

/// The index of a Fieldref.
#[tactic(auto, unfolding(crate::specs::Spelling::spell_field))]
pub fn put_field(alloc: Global, pool: &mut PoolWriter, field: &FieldRef) -> Result<u16, PoolStop>
    requires { FitsField field.now }
    ensures { Puts result pool.new (spelling.spell_field field.now pool.old) }
{
    let class = put_class(alloc, pool, &field.class)?;
    let descriptor = print_type(alloc, &field.ty)?;
    let pair = put_name_and_type(alloc, pool, &field.name, &descriptor)?;
    pool.add(Entry::Field(class, pair))
}

/// An InterfaceMethodref or a Methodref.
fn method_entry(in_interface: bool, class: u16, pair: u16) -> Entry
    ensures { result ≡ spelling.method_entry in_interface class pair }
{
    if in_interface {
        Entry::InterfaceMethod(class, pair)
    } else {
        Entry::Method(class, pair)
    }
}

/// The index of an InterfaceMethodref or of a Methodref.
#[tactic(auto, unfolding(crate::specs::Spelling::spell_method))]
pub fn put_method(alloc: Global, pool: &mut PoolWriter, method: &MethodRef) -> Result<u16, PoolStop>
    requires { FitsMethod method.now }
    ensures { Puts result pool.new (spelling.spell_method method.now pool.old) }
{
    let class = put_type(alloc, pool, &method.class)?;
    let descriptor = print_desc(alloc, &method.desc)?;
    let pair = put_name_and_type(alloc, pool, &method.name, &descriptor)?;
    pool.add(method_entry(method.in_interface, class, pair))
}
