//! The number by which the constant pool of a written class is bounded.

ghost use Rattle.std.specs.Prelude.{◌≡◌, ◌+◌, ◌*◌, List, OnOk, IfOk, flat_map, option_to_list, length, sum_by};
ghost use Rattle.class_limits.specs.Limits.{told};
ghost use Rattle.size_limits.specs.Items as items;
ghost use Rattle.size_limits.specs.Items.{Item, ClassItem, FieldItem, MethodItem};
ghost use Rattle.size_limits.specs.Pool as pool;

use crate::key::Key;
use crate::lists_by_class::ListsByClass;
use crate::measure::{Measure, sum_of};
use class_model::{
    ClassDef, CodeDef, Constant, FieldDef, FieldRef, Frame, Handler, Insn, JType, MethodDef,
    MethodDesc, MethodRef, VType,
};
use indexmap::IndexSet;
use lists::Name;
use std::alloc::{AllocError, Global};
use std::marker::Model;

/// The keys of the things that a class names, and what they add to the number.
#[derive(Drop)]
struct PoolCount {
    keys: IndexSet<Key>,
    worth: u64,
}

impl Model for PoolCount {
    ghost use Rattle.size_limits.specs.Pool.{Counted};

    ghost Value = { Counted };

    ghost view = { λ p. record { keys = p.keys.keys; worth = p.worth } };
}

impl PoolCount {
    fn new(alloc: Global) -> PoolCount
        ensures { result ≡ pool.nothing_counted }
    {
        PoolCount {
            keys: IndexSet::new(alloc),
            worth: 0,
        }
    }

    /// A key more, which adds so much where it is new.
    fn note(&mut self, key: Key, worth: u64) -> Result<(), AllocError>
        ensures { OnOk result (self.new ≡ pool.noted_key self.old key worth) }
    {
        if self.keys.insert(key)? {
            self.worth = self.worth.saturating_add(worth);
        }
        Ok(())
    }
}

/// What notes the things that something names.
trait Names<T> {
    ghost items: { T → List Item };

    fn note(&self, alloc: Global, count: &mut PoolCount, named: &T) -> Result<(), AllocError>
        ensures { OnOk result (count.new ≡ pool.all_noted count.old (items named.now)) };
}

#[tactic(auto, using(crate::proofs::Noted::noted_none, crate::proofs::Noted::noted_more, crate::proofs::Noted::noted_all))]
fn note_all<T, N: Names<T>>(
    names: &N,
    alloc: Global,
    count: &mut PoolCount,
    all: &[T],
) -> Result<(), AllocError>
    ensures { OnOk result (count.new ≡ pool.all_noted count.old (flat_map N.items all.now)) }
{
    for named in all {
        names.note(alloc, count, named)?;
    }
    Ok(())
}

#[tactic(auto, using(crate::proofs::Noted::noted_nil, crate::proofs::Noted::append_nil_items))]
fn note_if<T, N: Names<T>>(
    names: &N,
    alloc: Global,
    count: &mut PoolCount,
    named: &Option<T>,
) -> Result<(), AllocError>
    ensures { OnOk result (count.new ≡ pool.all_noted count.old (flat_map N.items (option_to_list named.now))) }
{
    match named {
        Some(named) => names.note(alloc, count, named),
        None => Ok(()),
    }
}

/// What counts the types of a type.
struct Types;

impl Measure<JType> for Types {
    ghost measure = { λ ty. pool.type_count ty };

    fn measure(&self, ty: &JType) -> u64 {
        u64::from(ty.depth) + 1
    }
}

fn desc_count(desc: &MethodDesc) -> u64
    ensures { result ≡ told (pool.desc_count desc.now) }
{
    let params = sum_of(&Types, desc.params.as_slice());
    match &desc.result {
        Some(ty) => params.saturating_add(Types.measure(ty)),
        None => params,
    }
}

impl Measure<FieldDef> for Types {
    ghost measure = { λ field. pool.field_types field };

    fn measure(&self, field: &FieldDef) -> u64 {
        Types.measure(&field.ty)
    }
}

impl Measure<MethodDef> for Types {
    ghost measure = { λ method. pool.method_types method };

    fn measure(&self, method: &MethodDef) -> u64 {
        desc_count(&method.desc)
    }
}

fn type_worth(ty: &JType) -> u64
    ensures { result ≡ told (pool.worth_of (ClassItem ty.now)) }
{
    4 * (u64::from(ty.depth) + 1)
}

fn field_worth(field: &FieldRef) -> u64
    ensures { result ≡ told (pool.worth_of (FieldItem field.now)) }
{
    12 + 4 * (u64::from(field.ty.depth) + 1)
}

fn method_worth(method: &MethodRef) -> u64
    ensures { result ≡ told (pool.worth_of (MethodItem method.now)) }
{
    let types = desc_count(&method.desc);
    types.saturating_mul(4).saturating_add(12)
}

/// What notes the things that a class names.
struct ClassNames;

#[tactic(auto, unfolding(crate::specs::Items::type_items), using(crate::proofs::Noted::note_one))]
fn note_type(alloc: Global, count: &mut PoolCount, ty: &JType) -> Result<(), AllocError>
    ensures { OnOk result (count.new ≡ pool.all_noted count.old (items.type_items ty.now)) }
{
    let key = Key::of_type(alloc, ty)?;
    count.note(key, type_worth(ty))
}

#[tactic(auto, unfolding(crate::specs::Items::name_items), using(crate::proofs::Noted::note_one))]
fn note_name(count: &mut PoolCount, name: &Name) -> Result<(), AllocError>
    ensures { OnOk result (count.new ≡ pool.all_noted count.old (items.name_items name.now)) }
{
    count.note(Key::Class(name.clone()?), 4)
}

#[tactic(auto, using(crate::proofs::Noted::noted_append, crate::proofs::Noted::note_one))]
fn note_field(alloc: Global, count: &mut PoolCount, field: &FieldRef) -> Result<(), AllocError>
    ensures { OnOk result (count.new ≡ pool.all_noted count.old (items.field_ref_items field.now)) }
{
    note_name(count, &field.class)?;
    let key = Key::of_field(alloc, field)?;
    count.note(key, field_worth(field))
}

#[tactic(auto, using(crate::proofs::Noted::noted_append, crate::proofs::Noted::note_one))]
fn note_method(alloc: Global, count: &mut PoolCount, method: &MethodRef) -> Result<(), AllocError>
    ensures { OnOk result (count.new ≡ pool.all_noted count.old (items.method_ref_items method.now)) }
{
    note_type(alloc, count, &method.class)?;
    let key = Key::of_method(alloc, method)?;
    count.note(key, method_worth(method))
}

impl Names<Name> for ClassNames {
    ghost items = { λ name. items.name_items name };

    fn note(&self, _alloc: Global, count: &mut PoolCount, name: &Name) -> Result<(), AllocError> {
        note_name(count, name)
    }
}

impl Names<Constant> for ClassNames {
    ghost items = { λ constant. items.constant_items constant };

    #[tactic(auto, using(crate::proofs::Noted::note_one))]
    fn note(
        &self,
        _alloc: Global,
        count: &mut PoolCount,
        constant: &Constant,
    ) -> Result<(), AllocError> {
        match constant {
            Constant::Int(n) => count.note(Key::Int(*n), 4),
            Constant::Long(n) => count.note(Key::Long(*n), 4),
            Constant::Text(text) => count.note(Key::Text(text.clone()?), 4),
        }
    }
}

impl Names<Insn> for ClassNames {
    ghost items = { λ insn. items.insn_items insn };

    #[tactic(auto, using(crate::proofs::Noted::note_one, crate::proofs::Noted::noted_nil))]
    fn note(&self, alloc: Global, count: &mut PoolCount, insn: &Insn) -> Result<(), AllocError> {
        match insn {
            Insn::PushInt(n) => count.note(Key::Int(*n), 4),
            Insn::PushLong(n) => count.note(Key::Long(*n), 4),
            Insn::PushString(text) => count.note(Key::Text(text.clone()?), 4),
            Insn::GetStatic(field)
            | Insn::PutStatic(field)
            | Insn::GetField(field)
            | Insn::PutField(field) => note_field(alloc, count, field),
            Insn::Invoke(_, method) => note_method(alloc, count, method),
            Insn::New(class) => note_name(count, class),
            Insn::ANewArray(ty)
            | Insn::CheckCast(ty)
            | Insn::InstanceOf(ty)
            | Insn::MultiNewArray(ty, _) => note_type(alloc, count, ty),
            _ => Ok(()),
        }
    }
}

impl Names<Handler> for ClassNames {
    ghost items = { λ handler. items.handler_items handler };

    fn note(
        &self,
        alloc: Global,
        count: &mut PoolCount,
        handler: &Handler,
    ) -> Result<(), AllocError> {
        note_if(self, alloc, count, &handler.caught)
    }
}

impl Names<VType> for ClassNames {
    ghost items = { λ ty. items.vtype_items ty };

    #[tactic(auto, using(crate::proofs::Noted::noted_nil))]
    fn note(&self, alloc: Global, count: &mut PoolCount, ty: &VType) -> Result<(), AllocError> {
        match ty {
            VType::Ref(ty) => note_type(alloc, count, ty),
            _ => Ok(()),
        }
    }
}

impl Names<(u32, Frame)> for ClassNames {
    ghost items = { λ row. items.frame_items row };

    #[tactic(auto, using(crate::proofs::Noted::noted_append))]
    fn note(
        &self,
        alloc: Global,
        count: &mut PoolCount,
        row: &(u32, Frame),
    ) -> Result<(), AllocError> {
        note_all(self, alloc, count, row.1.locals.as_slice())?;
        note_all(self, alloc, count, row.1.stack.as_slice())
    }
}

impl Names<CodeDef> for ClassNames {
    ghost items = { λ code. items.code_items code };

    #[tactic(auto, using(crate::proofs::Noted::noted_append))]
    fn note(&self, alloc: Global, count: &mut PoolCount, code: &CodeDef) -> Result<(), AllocError> {
        note_all(self, alloc, count, code.insns.as_slice())?;
        note_all(self, alloc, count, code.handlers.as_slice())?;
        note_all(self, alloc, count, code.frames.as_slice())
    }
}

/// The flag of a static field (JVMS 4.5).
const STATIC: u16 = 8;

impl Names<FieldDef> for ClassNames {
    ghost items = { λ field. items.field_items field };

    #[tactic(auto, using(crate::proofs::Noted::noted_nil))]
    fn note(
        &self,
        alloc: Global,
        count: &mut PoolCount,
        field: &FieldDef,
    ) -> Result<(), AllocError> {
        if field.flags & STATIC == 0 {
            Ok(())
        } else {
            note_if(self, alloc, count, &field.constant)
        }
    }
}

impl Names<MethodDef> for ClassNames {
    ghost items = { λ method. items.method_items method };

    fn note(
        &self,
        alloc: Global,
        count: &mut PoolCount,
        method: &MethodDef,
    ) -> Result<(), AllocError> {
        note_if(self, alloc, count, &method.code)
    }
}

#[tactic(auto, unfolding(crate::specs::Items::header_items), using(crate::proofs::Noted::noted_append))]
fn note_header(alloc: Global, count: &mut PoolCount, class: &ClassDef) -> Result<(), AllocError>
    ensures { OnOk result (count.new ≡ pool.all_noted count.old (items.header_items class.now)) }
{
    note_name(count, &class.name)?;
    note_if(&ClassNames, alloc, count, &class.super_name)?;
    note_all(&ClassNames, alloc, count, class.interfaces.as_slice())
}

#[tactic(auto, unfolding(crate::specs::Items::class_items), using(crate::proofs::Noted::noted_append))]
fn note_class(alloc: Global, count: &mut PoolCount, class: &ClassDef) -> Result<(), AllocError>
    ensures { OnOk result (count.new ≡ pool.all_noted count.old (items.class_items class.now)) }
{
    note_header(alloc, count, class)?;
    note_all(&ClassNames, alloc, count, class.fields.as_slice())?;
    note_all(&ClassNames, alloc, count, class.methods.as_slice())
}

/// What counts the names in Exceptions.
struct Throws;

impl Measure<MethodDef> for Throws {
    ghost measure = { λ method. pool.throws_in method };

    fn measure(&self, method: &MethodDef) -> u64 {
        method.throws.len() as u64
    }
}

/// So much for each.
fn times(factor: u64, number: u64) -> u64
    ensures { result ≡ told (factor * number) }
{
    factor.saturating_mul(number)
}

fn members_worth(class: &ClassDef) -> u64
    ensures { result ≡ told (20 * (length class.now.fields + length class.now.methods)) }
{
    let members = (class.fields.len() as u64).saturating_add(class.methods.len() as u64);
    members.saturating_mul(20)
}

fn types_worth(class: &ClassDef) -> u64
    ensures { result ≡ told (4 * (sum_by pool.field_types class.now.fields + sum_by pool.method_types class.now.methods)) }
{
    let fields = sum_of(&Types, class.fields.as_slice());
    let methods = sum_of(&Types, class.methods.as_slice());
    fields.saturating_add(methods).saturating_mul(4)
}

fn throws_worth(class: &ClassDef) -> u64
    ensures { result ≡ told (6 * pool.rows_letter class.now + 2 * pool.throws_letter class.now) }
{
    let rows = times(6, class.inner.len() as u64);
    rows.saturating_add(times(2, sum_of(&Throws, class.methods.as_slice())))
}

/// What the declarations of a class add to the number.
fn declared(lists: &ListsByClass<'_>, class: &ClassDef) -> u64
    ensures { result ≡ told (pool.declared_worth lists.now class.now) }
{
    members_worth(class)
        .saturating_add(types_worth(class))
        .saturating_add(throws_worth(class))
        .saturating_add(times(4, lists.listed(class)))
        .saturating_add(600)
}

/// The number of the constant pool of a class, in proportion to the size of the class. Takes memory for the keys of what
/// the class names.
#[tactic(auto, using(crate::proofs::Noted::pool_number_is))]
pub(crate) fn pool_number(
    alloc: Global,
    lists: &ListsByClass<'_>,
    class: &ClassDef,
) -> Result<u64, AllocError>
    ensures { IfOk result (λ number. number ≡ told (pool.pool_number lists.now class.now)) }
{
    let mut count = PoolCount::new(alloc);
    note_class(alloc, &mut count, class)?;
    Ok(count.worth.saturating_add(declared(lists, class)))
}
