//! The tables of a program that its code leads to, while they grow.

ghost use Rattle.std.specs.Prelude.{◌≡◌, ◌⊎◌, ◌<◌, true, Some, OnOk, IfOk, length, position, slice_get};
ghost use Rattle.std.specs.List.{IsDistinct};
ghost use Rattle.indexmap.specs.IndexSet.{insert_key};
ghost use Rattle.run_state.specs.References.{element_type};
ghost use Rattle.set_lookups.specs.Above.{same_name};
ghost use Rattle.program_links.specs.Keys.{same_selector};
ghost use Rattle.program_links.specs.Numbers.{Keeps, Grows, HasElementOrSelf, AreElements};

use crate::keys::{Selector, TypeKey};
use class_model::{BaseType, MethodDesc};
use indexmap::IndexSet;
use linked_code::{Call, Rows, Table};
use lists::{Name, Seq, Units};
use std::alloc::{AllocError, Global};
use std::hash::Hash;
use std::marker::Model;

/// Puts a key behind those that are there, unless it is among them, and gives its number.
fn put_key<K: Hash + Eq + Drop>(keys: &mut IndexSet<K>, key: K) -> Result<u32, AllocError>
    ensures put { (keys.new.keys ≡ keys.old.keys) ⊎ (keys.new.keys ≡ insert_key K.eq keys.old.keys key) }
    ensures keeps { OnOk result (Keeps keys.old.keys keys.new.keys) }
    ensures stored { IfOk result (λ n. (k : K) × (slice_get keys.new.keys n ≡ Some k) × (K.eq key k ≡ true)) }
{
    let (at, _) = keys.insert_full(key)?;
    match u32::try_from(at) {
        Ok(number) => Ok(number),
        Err(_) => Err(AllocError),
    }
}

/// Puts an item behind those that are there, and gives its number.
fn put_last<T: Drop>(items: &mut Seq<T>, item: T) -> Result<u32, AllocError>
    ensures keeps { OnOk result (Keeps items.old items.new) }
    ensures stored { IfOk result (λ n. slice_get items.new n ≡ Some item) }
{
    let at = items.len();
    items.push(item)?;
    match u32::try_from(at) {
        Ok(number) => Ok(number),
        Err(_) => Err(AllocError),
    }
}

/// The number of a key, where it is there.
fn find_key<K: Hash + Eq + Drop>(keys: &IndexSet<K>, key: &K) -> Result<Option<u32>, AllocError>
    ensures found { IfOk result (λ found. found ≡ position (K.eq key.now) keys.now.keys) }
    ensures distinct { IsDistinct K.eq keys.now.keys }
{
    let _count = keys.len();
    match keys.get_index_of(key) {
        Some(at) => match u32::try_from(at) {
            Ok(number) => Ok(Some(number)),
            Err(_) => Err(AllocError),
        },
        None => Ok(None),
    }
}

fn selector_of(name: &Name, desc: &MethodDesc) -> Result<Selector, AllocError>
    ensures { IfOk result (λ key. key ≡ record { name = name.now; desc = desc.now }) }
{
    Ok(Selector {
        name: name.clone()?,
        desc: desc.clone()?,
    })
}

fn copy_base(base: &BaseType) -> Result<BaseType, AllocError>
    ensures { IfOk result (λ copy. copy ≡ base.now) }
{
    base.clone()
}

fn type_key(depth: u32, base: &BaseType) -> Result<TypeKey, AllocError>
    ensures { IfOk result (λ key. key ≡ record { depth = depth; base = base.now }) }
{
    let base = copy_base(base)?;
    Ok(TypeKey { depth, base })
}

fn element_key(ty: &TypeKey) -> Result<TypeKey, AllocError>
    ensures { IfOk result (λ key. key ≡ element_type ty.now) }
{
    type_key(ty.depth.saturating_sub(1), &ty.base)
}

/// The types, texts and selectors that were met, and the calls and switches. The type of the elements of each type is there.
#[derive(Drop)]
pub struct Tables {
    types: IndexSet<TypeKey>,
    texts: IndexSet<Units>,
    selectors: IndexSet<Selector>,
    calls: Seq<Call>,
    tables: Seq<Table>,
    rows: Seq<Rows>,
}

impl Model for Tables {
    ghost use Rattle.program_links.specs.Numbers.{Numbers, AreElements};

    ghost Value = { Numbers };

    ghost view = { λ t. record { types = t.types.keys; texts = t.texts.keys; selectors = t.selectors.keys; calls = t.calls; tables = t.tables; rows = t.rows } };

    ghost invariant = { λ t. AreElements t.types.keys };
}

impl Tables {
    /// No number at all.
    pub fn new(alloc: Global) -> Tables
        ensures { AreElements result.types }
    {
        Tables {
            types: IndexSet::new(alloc),
            texts: IndexSet::new(alloc),
            selectors: IndexSet::new(alloc),
            calls: Seq::new(alloc),
            tables: Seq::new(alloc),
            rows: Seq::new(alloc),
        }
    }

    /// The number of a text.
    pub fn text(&mut self, text: &Units) -> Result<u32, AllocError>
        ensures grows { OnOk result (Grows self.old self.new) }
        ensures is { IfOk result (λ n. slice_get self.new.texts n ≡ Some text.now) }
    {
        put_key(&mut self.texts, text.clone()?)
    }

    /// The number of a name and a descriptor.
    #[tactic(auto, using(crate::proofs::Growing::selector_stored))]
    pub fn selector(&mut self, name: &Name, desc: &MethodDesc) -> Result<u32, AllocError>
        ensures grows { OnOk result (Grows self.old self.new) }
        ensures is { IfOk result (λ n. slice_get self.new.selectors n ≡ Some (record { name = name.now; desc = desc.now })) }
    {
        let key = selector_of(name, desc)?;
        put_key(&mut self.selectors, key)
    }

    /// The number of a call.
    pub fn call(&mut self, call: Call) -> Result<u32, AllocError>
        ensures grows { OnOk result (Grows self.old self.new) }
        ensures is { IfOk result (λ n. slice_get self.new.calls n ≡ Some call) }
    {
        put_last(&mut self.calls, call)
    }

    /// The number of the targets of a tableswitch.
    pub fn table(&mut self, table: Table) -> Result<u32, AllocError>
        ensures grows { OnOk result (Grows self.old self.new) }
        ensures is { IfOk result (λ n. slice_get self.new.tables n ≡ Some table) }
    {
        put_last(&mut self.tables, table)
    }

    /// The number of the rows of a lookupswitch.
    pub fn rows(&mut self, rows: Rows) -> Result<u32, AllocError>
        ensures grows { OnOk result (Grows self.old self.new) }
        ensures is { IfOk result (λ n. slice_get self.new.rows n ≡ Some rows) }
    {
        put_last(&mut self.rows, rows)
    }

    /// The number of a type whose elements' type is there.
    #[tactic(auto, using(crate::proofs::Growing::type_stored))]
    fn next_type(&mut self, depth: u32, base: &BaseType) -> Result<u32, AllocError>
        requires { HasElementOrSelf self.old.types (record { depth = depth; base = base.now }) }
        ensures grows { OnOk result (Grows self.old self.new) }
        ensures is { IfOk result (λ n. slice_get self.new.types n ≡ Some (record { depth = depth; base = base.now })) }
    {
        let key = type_key(depth, base)?;
        put_key(&mut self.types, key)
    }

    /// The number of a type.
    #[tactic(auto, using(crate::proofs::Growing::array_of_one, crate::proofs::Growing::grown_further))]
    pub fn ty(&mut self, depth: u32, base: &BaseType) -> Result<u32, AllocError>
        ensures grows { OnOk result (Grows self.old self.new) }
        ensures is { IfOk result (λ n. slice_get self.new.types n ≡ Some (record { depth = depth; base = base.now })) }
    {
        let mut number = self.next_type(0, base)?;
        for below in 0..depth {
            number = self.next_type(below + 1, base)?;
        }
        Ok(number)
    }

    /// The number of a name and a descriptor that were met.
    pub fn find_selector(&self, name: &Name, desc: &MethodDesc) -> Result<Option<u32>, AllocError>
        ensures found { IfOk result (λ found. found ≡ position (same_selector (record { name = name.now; desc = desc.now })) self.now.selectors) }
        ensures distinct { IsDistinct same_selector self.now.selectors }
    {
        let _count = self.selectors.len();
        let key = selector_of(name, desc)?;
        find_key(&self.selectors, &key)
    }

    /// How many types were met.
    pub fn count_types(&self) -> usize
        ensures { result ≡ length self.now.types }
    {
        self.types.len()
    }

    /// A type that was met.
    pub fn type_at(&self, number: usize) -> &TypeKey
        requires { number < length self.now.types }
        ensures { slice_get self.now.types number ≡ Some result.now }
    {
        &self.types.as_slice()[number]
    }

    /// The number of the type of the elements of a type that was met.
    #[tactic(auto, using(crate::proofs::Growing::element_found))]
    pub fn element(&self, _number: usize, ty: &TypeKey) -> Result<u32, AllocError>
        requires { slice_get self.now.types _number ≡ Some ty.now }
        ensures { IfOk result (λ n. slice_get self.now.types n ≡ Some (element_type ty.now)) }
    {
        let key = element_key(ty)?;
        match find_key(&self.types, &key)? {
            Some(number) => Ok(number),
            None => unreachable!(),
        }
    }

    /// The texts that were met, no two of which are the same.
    pub fn all_texts(&self, alloc: Global) -> Result<Seq<Units>, AllocError>
        ensures { IfOk result (λ texts. texts ≡ self.now.texts) }
    {
        copy_texts(alloc, self.texts.as_slice())
    }

    /// The calls and switches. Takes no memory.
    pub fn into_lists(self) -> Lists
        ensures calls { result.calls ≡ self.calls }
        ensures tables { result.tables ≡ self.tables }
        ensures rows { result.rows ≡ self.rows }
        ensures distinct { IsDistinct same_name self.texts }
    {
        let _count = self.texts.len();
        let Tables {
            calls,
            tables,
            rows,
            ..
        } = self;
        Lists {
            calls,
            tables,
            rows,
        }
    }
}

/// Calls and switches.
#[derive(Drop)]
pub struct Lists {
    pub calls: Seq<Call>,
    pub tables: Seq<Table>,
    pub rows: Seq<Rows>,
}

fn copy_texts(alloc: Global, texts: &[Units]) -> Result<Seq<Units>, AllocError>
    ensures { IfOk result (λ copies. copies ≡ texts.now) }
{
    let mut copies = Seq::new(alloc);
    for text in texts {
        copies.push(text.clone()?)?;
    }
    Ok(copies)
}
