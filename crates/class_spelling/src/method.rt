//! Methods (JVMS 4.6).

ghost use Rattle.std.specs.Prelude.{◌≡◌, ◌<◌, ◌^◌, List, ℕ, Option, All, IfOk, IfSome, length};
ghost use Rattle.class_model.specs.declared.class.CodeDef.{CodeDef};
ghost use Rattle.const_pool.specs.declared.entry.Entry.{Entry};
ghost use Rattle.class_file.specs.ClassBytes.{code_name};
ghost use Rattle.class_file.specs.declared.method.MethodHead.{MethodHead};
ghost use Rattle.pool_names.specs.Adding.{Adding, Puts, PutsBy, Writes, spell_each};
ghost use Rattle.pool_names.specs.Claims.{Claims};
ghost use Rattle.pool_names.specs.Fits.{FitsText};
ghost use Rattle.class_spelling.specs.AttributeSpelling.{spell_method_attributes};
ghost use Rattle.class_spelling.specs.ClassSpelling.{spell_method};
ghost use Rattle.class_spelling.specs.Forms.{spell_attribute, spell_when_some, spell_table};
ghost use Rattle.class_spelling.specs.Writable.{EachFits, FitsCount, WritableMethod};

use crate::attribute::{count_any, count_some, put_attribute};
use crate::content::put_exceptions_if_any;
use crate::table::put_count;
use class_file::MethodHead;
use class_model::{CodeDef, MethodDef};
use const_pool::PoolStop;
use lists::{Name, Seq};
use pool_names::{PoolWriter, put_ascii, put_desc, put_text, put_u16};
use std::alloc::Global;

/// A writer of the contents of Code attributes (JVMS 4.7.3).
pub trait CodeWriter {
    /// What the bytes of a content are, by the pool, the name of the class and the head of the method.
    ghost is_code: { List (Option Entry) → List ℕ → MethodHead → List ℕ → CodeDef → Type 0 };

    /// How a content is spelled.
    ghost spelled: { CodeDef → Adding (List ℕ) };

    /// What a code has to be so that it can be written.
    ghost writable: { CodeDef → Type 0 };

    /// The bytes of a content.
    fn write_code(
        &self,
        alloc: Global,
        pool: &mut PoolWriter,
        code: &CodeDef,
    ) -> Result<Vec<u8>, PoolStop>
        requires { writable code.now }
        ensures put { PutsBy (λ content. content.items) result pool.new (spelled code.now pool.old) }
        ensures short { IfOk result (λ content. length content.items < 2 ^ 32) };

    /// The bytes are this code, in each pool that extends the one afterwards.
    ghost claims: { (class : List ℕ) (head : MethodHead) (code : CodeDef) → writable code → Claims (λ r text. is_code r class head text code) (spelled code) };
}

/// Puts a Code behind other bytes.
#[tactic(auto, unfolding(crate::specs::Forms::spell_attribute))]
fn put_code<C: CodeWriter>(
    alloc: Global,
    writer: &C,
    pool: &mut PoolWriter,
    out: &mut Vec<u8>,
    code: &CodeDef,
) -> Result<(), PoolStop>
    requires { C.writable code.now }
    ensures { Writes result pool.new out.old.items out.new.items (spell_attribute code_name (C.spelled code.now) pool.old) }
{
    let name = put_ascii(alloc, pool, b"Code")?;
    let content = writer.write_code(alloc, pool, code)?;
    put_attribute(out, name, content.as_slice())?;
    Ok(())
}

#[tactic(auto, unfolding(crate::specs::Forms::spell_when_some))]
fn put_code_if_any<C: CodeWriter>(
    alloc: Global,
    writer: &C,
    pool: &mut PoolWriter,
    out: &mut Vec<u8>,
    code: &Option<CodeDef>,
) -> Result<(), PoolStop>
    requires { IfSome code.now C.writable }
    ensures { Writes result pool.new out.old.items out.new.items (spell_when_some code_name C.spelled code.now pool.old) }
{
    match code {
        None => Ok(()),
        Some(code) => put_code(alloc, writer, pool, out, code),
    }
}

/// Puts the attributes of a method behind other bytes: its code, if it has one, and what it throws, if it does.
#[tactic(auto, unfolding(crate::specs::AttributeSpelling::spell_method_attributes))]
fn put_method_attributes<C: CodeWriter>(
    alloc: Global,
    writer: &C,
    pool: &mut PoolWriter,
    out: &mut Vec<u8>,
    code: &Option<CodeDef>,
    throws: &Seq<Name>,
) -> Result<(), PoolStop>
    requires code { IfSome code.now C.writable }
    requires count { FitsCount throws.now }
    requires texts { EachFits throws.now }
    ensures { Writes result pool.new out.old.items out.new.items (spell_method_attributes C.spelled code.now throws.now pool.old) }
{
    put_u16(out, count_some(code) + count_any(throws))?;
    put_code_if_any(alloc, writer, pool, out, code)?;
    put_exceptions_if_any(alloc, pool, out, throws.as_slice())
}

/// Puts a method behind other bytes.
#[tactic(auto, unfolding(crate::specs::ClassSpelling::spell_method, crate::specs::Forms::spell_index))]
fn put_method<C: CodeWriter>(
    alloc: Global,
    writer: &C,
    pool: &mut PoolWriter,
    out: &mut Vec<u8>,
    method: &MethodDef,
) -> Result<(), PoolStop>
    requires { WritableMethod C.writable method.now }
    ensures { Writes result pool.new out.old.items out.new.items (spell_method C.spelled method.now pool.old) }
{
    put_u16(out, method.flags)?;
    let name = put_text(alloc, pool, method.name.as_units())?;
    put_u16(out, name)?;
    let desc = put_desc(alloc, pool, &method.desc)?;
    put_u16(out, desc)?;
    put_method_attributes(alloc, writer, pool, out, &method.code, &method.throws)
}

fn put_each_method<C: CodeWriter>(
    alloc: Global,
    writer: &C,
    pool: &mut PoolWriter,
    out: &mut Vec<u8>,
    methods: &[MethodDef],
) -> Result<(), PoolStop>
    requires { All (WritableMethod C.writable) methods.now }
    ensures { Writes result pool.new out.old.items out.new.items (spell_each (spell_method C.spelled) methods.now pool.old) }
{
    for method in methods {
        put_method(alloc, writer, pool, out, method)?;
    }
    Ok(())
}

/// Puts the table of methods behind other bytes.
#[tactic(auto, unfolding(crate::specs::Forms::spell_table))]
pub fn put_methods<C: CodeWriter>(
    alloc: Global,
    writer: &C,
    pool: &mut PoolWriter,
    out: &mut Vec<u8>,
    methods: &[MethodDef],
) -> Result<(), PoolStop>
    requires count { FitsCount methods.now }
    requires each { All (WritableMethod C.writable) methods.now }
    ensures { Writes result pool.new out.old.items out.new.items (spell_table (spell_method C.spelled) methods.now pool.old) }
{
    put_count(out, methods.len())?;
    put_each_method(alloc, writer, pool, out, methods)
}
