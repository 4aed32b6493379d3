//! Whole class files (JVMS 4.1).

ghost use Rattle.std.specs.Prelude.{◌≡◌, ◌++◌, [], ◌∷◌, IfOk, IfSome, OnOk, Ok};
ghost use Rattle.class_file.specs.ClassBytes.{ClassBytes};
ghost use Rattle.class_names.specs.Pieces.{joined};
ghost use Rattle.const_pool.specs.Pool.{Pool, IsPool};
ghost use Rattle.pool_names.specs.Adding.{PutsBy, Writes};
ghost use Rattle.pool_names.specs.Fits.{FitsText};
ghost use Rattle.class_spelling.specs.ClassSpelling.{front_bytes, spell_front, spell_class_head, spell_members, spell_class_body, pool_bytes, spell_class_file, IsWritten};
ghost use Rattle.class_spelling.specs.Writable.{EachFits, FitsCount, Writable};

use crate::content::put_class_attributes;
use crate::field::put_fields;
use crate::inner::put_optional_class;
use crate::method::{CodeWriter, put_methods};
use crate::table::{put_class_index, put_classes};
use class_model::ClassDef;
use const_pool::PoolStop;
use lists::{Bytes, Seq};
use pool_names::{PoolWriter, put_u16, put_u32};
use std::alloc::{AllocError, Global};

/// Puts the class itself behind other bytes: its flags, its name, its superclass and its interfaces.
#[tactic(auto, unfolding(crate::specs::ClassSpelling::spell_class_head, crate::specs::Forms::spell_index))]
fn put_class_head(
    alloc: Global,
    pool: &mut PoolWriter,
    out: &mut Vec<u8>,
    class: &ClassDef,
) -> Result<(), PoolStop>
    requires named { FitsText class.now.name }
    requires super_named { IfSome class.now.super_name FitsText }
    requires count { FitsCount class.now.interfaces }
    requires interfaces { EachFits class.now.interfaces }
    ensures { Writes result pool.new out.old.items out.new.items (spell_class_head class.now pool.old) }
{
    put_u16(out, class.flags)?;
    put_class_index(alloc, pool, out, &class.name)?;
    let super_name = put_optional_class(alloc, pool, &class.super_name)?;
    put_u16(out, super_name)?;
    put_classes(alloc, pool, out, class.interfaces.as_slice())
}

/// Puts what the class has behind other bytes: its fields, its methods and its attributes.
#[tactic(auto, unfolding(crate::specs::ClassSpelling::spell_members))]
fn put_members<C: CodeWriter>(
    alloc: Global,
    writer: &C,
    pool: &mut PoolWriter,
    out: &mut Vec<u8>,
    class: &ClassDef,
) -> Result<(), PoolStop>
    requires { Writable C.writable class.now }
    ensures { Writes result pool.new out.old.items out.new.items (spell_members C.spelled class.now pool.old) }
{
    put_fields(alloc, pool, out, class.fields.as_slice())?;
    put_methods(alloc, writer, pool, out, class.methods.as_slice())?;
    put_class_attributes(alloc, pool, out, &class.source, &class.inner)
}

/// Puts a class behind its constant pool.
#[tactic(auto, unfolding(crate::specs::ClassSpelling::spell_class_body))]
fn put_class_body<C: CodeWriter>(
    alloc: Global,
    writer: &C,
    pool: &mut PoolWriter,
    out: &mut Vec<u8>,
    class: &ClassDef,
) -> Result<(), PoolStop>
    requires { Writable C.writable class.now }
    ensures { Writes result pool.new out.old.items out.new.items (spell_class_body C.spelled class.now pool.old) }
{
    put_class_head(alloc, pool, out, class)?;
    put_members(alloc, writer, pool, out, class)
}

/// Puts what stands before the constant pool behind other bytes: the magic number and the version.
#[tactic(auto, unfolding(crate::specs::ClassSpelling::spell_front))]
fn put_front(out: &mut Vec<u8>, class: &ClassDef) -> Result<(), AllocError>
    ensures put { OnOk result (out.new.items ≡ out.old.items ++ front_bytes class.now) }
    ensures spelled { OnOk result ((pool : Pool) → spell_front class.now pool ≡ Ok (pool, front_bytes class.now)) }
{
    put_u32(out, 0xCAFE_BABE)?;
    put_u16(out, class.minor)?;
    put_u16(out, class.major)
}

/// The bytes of a class behind its constant pool.
fn class_body<C: CodeWriter>(
    alloc: Global,
    writer: &C,
    pool: &mut PoolWriter,
    class: &ClassDef,
) -> Result<Vec<u8>, PoolStop>
    requires { Writable C.writable class.now }
    ensures { PutsBy (λ body. body.items) result pool.new (spell_class_body C.spelled class.now pool.old) }
{
    let mut body = Vec::new(alloc);
    put_class_body(alloc, writer, pool, &mut body, class)?;
    Ok(body)
}

/// The bytes of a class file, whose constant pool stands before its body.
#[tactic(auto, using(crate::proofs::Pools::pool_spelled, crate::proofs::Pools::pool_written))]
fn put_together(
    alloc: Global,
    class: &ClassDef,
    pool: &PoolWriter,
    body: &[u8],
) -> Result<Bytes, AllocError>
    ensures bytes { IfOk result (λ bytes. bytes ≡ joined (front_bytes class.now ∷ pool_bytes pool.now ∷ body.now ∷ [])) }
    ensures pool { OnOk result (IsPool (pool_bytes pool.now) pool.now) }
    ensures front { OnOk result (spell_front class.now pool.now ≡ Ok (pool.now, front_bytes class.now)) }
{
    let pool_text = pool.encode()?;
    let mut bytes = Vec::new(alloc);
    put_front(&mut bytes, class)?;
    bytes.extend_from_slice(pool_text.as_slice())?;
    bytes.extend_from_slice(body)?;
    Ok(Seq::from_vec(bytes))
}

/// The bytes of a class file that is this class (JVMS 4.1), in the spelling that is written. `Full` holds the last
/// index of the first entry of the constant pool that does not fit.
pub fn write_class<C: CodeWriter>(
    alloc: Global,
    writer: &C,
    class: &ClassDef,
) -> Result<Bytes, PoolStop>
    requires { Writable C.writable class.now }
    // What is written is the class.
    ensures written { IfOk result (λ bytes. ClassBytes C.is_code bytes class.now) }
    // The bytes, and the number where the pool is full, are those of the definition.
    ensures spelled { IsWritten result (spell_class_file C.spelled class.now) }
{
    let mut pool = PoolWriter::new(alloc)?;
    let body = class_body(alloc, writer, &mut pool, class)?;
    let bytes = put_together(alloc, class, &pool, body.as_slice())?;
    Ok(bytes)
}
