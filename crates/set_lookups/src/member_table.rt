//! The members of all classes, found by hash.

ghost use Rattle.std.specs.Prelude.{◌≡◌, [], Bool, ◌==◌, ◌&&◌, ◌≤◌, Some, None, OnOk, IfOk, List, ℕ, length, position, if◌then◌else◌};
ghost use Rattle.std.specs.Option.{option_or};
ghost use Rattle.set_lookups.specs.Counts.{AreCounted};
ghost use Rattle.set_lookups.specs.Members as table;
ghost use Rattle.set_lookups.specs.Members.{Parts, place_in, key_parts, query_parts, same_parts, same_rest};
ghost use Rattle.set_lookups.specs.Wanted.{same_wanted};

use crate::member_key::{MemberKey, MemberQuery};
use crate::members::{Wanted, is_wanted};
use class_model::{ClassDef, FieldDef, FieldRef, JType, MethodDef, MethodDesc};
use indexmap::IndexMap;
use lists::{Name, Seq};
use std::alloc::{AllocError, Global};
use std::marker::Model;

/// The place of the first member for each key.
#[derive(Drop)]
pub struct MemberTable {
    places: IndexMap<MemberKey, u32>,
}

impl Model for MemberTable {
    ghost use Rattle.std.specs.Prelude.{List, ℕ};
    ghost use Rattle.set_lookups.specs.declared.member_key.MemberKey.{MemberKey as Key};

    ghost Value = { List (Key × ℕ) };

    ghost view = { λ t. t.places.entries };
}

impl MemberTable {
    fn new(alloc: Global) -> MemberTable
        ensures { (parts : Parts) → place_in result parts ≡ None }
    {
        MemberTable {
            places: IndexMap::new(alloc),
        }
    }

    /// The place of a member. Takes no memory.
    pub fn get(&self, query: MemberQuery<'_>) -> Option<u32>
        ensures { result ≡ place_in self.now (query_parts query.entry) }
    {
        self.places.get(query).copied()
    }

    /// Gives a key a place, also where it has one.
    fn put(&mut self, key: MemberKey, place: u32) -> Result<(), AllocError>
        ensures { OnOk result ((parts : Parts) → place_in self.new parts ≡ (if same_parts (key_parts key) parts then Some place else place_in self.old parts)) }
    {
        self.places.insert(key, place)?;
        Ok(())
    }

    /// Gives a method a place for one kind of look-up, where that takes it.
    fn put_wanted(
        &mut self,
        class: u32,
        wanted: Wanted,
        method: &MethodDef,
        place: u32,
    ) -> Result<(), AllocError>
        ensures { OnOk result ((parts : Parts) → place_in self.new parts
            ≡ (if (class == parts.class) && (same_wanted wanted parts.wanted && table.is_method_of method.now parts) then Some place else place_in self.old parts)) }
    {
        if !is_wanted(method, wanted) {
            return Ok(());
        }
        let desc = copy_desc(&method.desc)?;
        let name = method.name.clone()?;
        let key = MemberKey {
            class,
            wanted,
            name,
            desc,
        };
        self.put(key, place)?;
        Ok(())
    }
}

fn copy_desc(desc: &MethodDesc) -> Result<MethodDesc, AllocError>
    ensures { IfOk result (λ copy. copy ≡ desc.now) }
{
    desc.clone()
}

fn copy_type(ty: &JType) -> Result<JType, AllocError>
    ensures { IfOk result (λ copy. copy ≡ ty.now) }
{
    ty.clone()
}

/// What is found by name and descriptor.
pub trait Member {
    ghost is_of: { Self → Parts → Bool };

    /// Gives a member a place in place of those of its name and descriptor that have one.
    fn put(
        &self,
        alloc: Global,
        table: &mut MemberTable,
        class: u32,
        place: u32,
    ) -> Result<(), AllocError>
        ensures { OnOk result ((parts : Parts) → place_in table.new parts
            ≡ (if (class == parts.class) && is_of self.now parts then Some place else place_in table.old parts)) };
}

impl Member for MethodDef {
    ghost is_of = { table.is_method_of };

    fn put(
        &self,
        alloc: Global,
        table: &mut MemberTable,
        class: u32,
        place: u32,
    ) -> Result<(), AllocError> {
        let _ = alloc;
        table.put_wanted(class, Wanted::Any, self, place)?;
        table.put_wanted(class, Wanted::Inherited, self, place)?;
        table.put_wanted(class, Wanted::Final, self, place)?;
        Ok(())
    }
}

impl Member for FieldDef {
    ghost is_of = { table.is_field_of };

    fn put(
        &self,
        alloc: Global,
        table: &mut MemberTable,
        class: u32,
        place: u32,
    ) -> Result<(), AllocError> {
        let ty = copy_type(&self.ty)?;
        let name = self.name.clone()?;
        let params = Seq::new(alloc);
        let desc = MethodDesc {
            params,
            result: Some(ty),
        };
        let key = MemberKey {
            class,
            wanted: Wanted::Any,
            name,
            desc,
        };
        table.put(key, place)?;
        Ok(())
    }
}

/// Gives the members of a class their places, from the last one on, so that the first of several stays.
fn put_members<T: Member>(
    alloc: Global,
    table: &mut MemberTable,
    class: u32,
    members: &[T],
) -> Result<(), AllocError>
    requires { length members.now ≤ 65535 }
    ensures { OnOk result ((parts : Parts) → place_in table.new parts
        ≡ option_or (if class == parts.class then position (λ member. T.is_of member parts) members.now else None) (place_in table.old parts)) }
{
    let mut at = members.len();
    while at > 0 {
        at -= 1;
        members[at].put(alloc, table, class, at as u32)?;
    }
    Ok(())
}

/// The places of the methods of all classes.
pub fn place_methods(alloc: Global, classes: &[ClassDef]) -> Result<MemberTable, AllocError>
    requires { AreCounted classes.now }
    ensures { IfOk result (λ t. (parts : Parts) → place_in t parts ≡ table.method_place classes.now parts) }
{
    let mut table = MemberTable::new(alloc);
    for number in 0..classes.len() {
        let methods = classes[number].methods.as_slice();
        put_members(alloc, &mut table, number as u32, methods)?;
    }
    Ok(table)
}

/// The places of the fields of all classes.
pub fn place_fields(alloc: Global, classes: &[ClassDef]) -> Result<MemberTable, AllocError>
    requires { AreCounted classes.now }
    ensures { IfOk result (λ t. (parts : Parts) → place_in t parts ≡ table.field_place classes.now parts) }
{
    let mut table = MemberTable::new(alloc);
    for number in 0..classes.len() {
        let fields = classes[number].fields.as_slice();
        put_members(alloc, &mut table, number as u32, fields)?;
    }
    Ok(table)
}

/// The members of all classes by class, name and descriptor.
#[derive(Drop)]
pub struct Members {
    pub fields: MemberTable,
    pub methods: MemberTable,
    /// A field has no parameters.
    pub no_types: Seq<JType>,
}

impl Members {
    /// The first method of a class that has a name and a descriptor and that a look-up takes.
    pub fn method(&self, class: u32, name: &Name, desc: &MethodDesc, wanted: Wanted) -> Option<u32>
        ensures { result ≡ place_in self.now.methods (table.parts_of class wanted name.now desc.now) }
    {
        self.methods.get(MemberQuery {
            class,
            wanted,
            name,
            params: &desc.params,
            given: desc.result.as_ref(),
        })
    }

    /// The first field of a class that a reference names, the class aside.
    pub fn field(&self, class: u32, target: &FieldRef) -> Option<u32>
        ensures { self.now.no_types ≡ [] → result ≡ place_in self.now.fields (table.parts_of_field class target.now) }
    {
        self.fields.get(MemberQuery {
            class,
            wanted: Wanted::Any,
            name: &target.name,
            params: &self.no_types,
            given: Some(&target.ty),
        })
    }
}

/// The members of classes.
pub fn link_members(alloc: Global, classes: &[ClassDef]) -> Result<Members, AllocError>
    requires { AreCounted classes.now }
    ensures { IfOk result (λ members. table.AreMembers classes.now members.fields members.methods members.no_types) }
{
    let fields = place_fields(alloc, classes)?;
    let methods = place_methods(alloc, classes)?;
    Ok(Members {
        fields,
        methods,
        no_types: Seq::new(alloc),
    })
}
