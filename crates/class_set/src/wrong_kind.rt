//! Instructions that name a member or a class of the wrong kind.

ghost use Rattle.std.specs.Prelude.{◌≡◌, ◌||◌, not, is_some, option_map, option_copied, option_and_then};
ghost use Rattle.set_lookups.specs.Above.{find_class};
ghost use Rattle.set_lookups.specs.Flags as flags;
ghost use Rattle.set_lookups.specs.Lookups as look;
ghost use Rattle.class_set.specs.Calls as table;

use crate::core_shapes::is_text;
use crate::flags::{is_abstract, is_interface, is_private, is_static};
use crate::texts::insn_text;
use crate::walk::InsnRule;
use class_model::{
    BaseType, ClassDef, FieldDef, FieldRef, Insn, InvokeKind, JType, MethodDef, MethodRef,
};
use lists::Name;
use set_lookups::{ClassId, Hierarchy, MethodId};
use std::alloc::{AllocError, Global};

/// Each instruction names members and classes of the right kind.
#[derive(Drop)]
pub struct Fits<'a> {
    pub set: &'a Hierarchy,
}

fn resolved_field<'a>(set: &'a Hierarchy, field: &FieldRef) -> Option<&'a FieldDef>
    ensures { option_copied result ≡ option_and_then (look.field_at set.now) (look.resolve_field set.now field.now) }
{
    let (class, index) = set.resolve_field(field)?;
    set.field(MethodId {
        class: class.0,
        index,
    })
}

/// The class that a method reference names; an array is none.
fn named_class(set: &Hierarchy, ty: &JType) -> Option<ClassId>
    ensures { option_map (λ id. id.0) result ≡ table.named_class set.now ty.now }
{
    match &ty.base {
        BaseType::Class(name) if ty.depth == 0 => set.find_name(name),
        _ => None,
    }
}

/// Whether a class that was found is an interface.
fn is_interface_at(set: &Hierarchy, id: Option<ClassId>) -> bool
    ensures { result ≡ table.is_class set.now flags.is_interface (option_map (λ id. id.0) id) }
{
    let Some(id) = id else {
        return false;
    };
    match set.class_at(id) {
        Some(class) => is_interface(class),
        None => false,
    }
}

fn is_init(target: &MethodRef) -> bool
    ensures { result ≡ table.is_init target.now }
{
    is_text(&target.name, "<init>")
}

fn is_selected_call(kind: InvokeKind) -> bool
    ensures { result ≡ table.is_selected_call kind }
{
    matches!(kind, InvokeKind::Virtual | InvokeKind::Interface)
}

/// A call that cannot be made whatever it resolves to.
fn is_wrong_reference(set: &Hierarchy, kind: InvokeKind, target: &MethodRef) -> bool
    ensures { result ≡ table.is_wrong_reference set.now kind target.now }
{
    let names_interface = is_interface_at(set, named_class(set, &target.class));
    if is_text(&target.name, "<clinit>") || (is_init(target) && kind != InvokeKind::Special) {
        return true;
    }
    if target.in_interface {
        !is_selected_call(kind) || !names_interface
    } else {
        names_interface
    }
}

/// Whether a method that was selected is not there or has no code.
pub fn lacks_body(set: &Hierarchy, selected: Option<MethodId>) -> bool
    ensures { result ≡ table.lacks_body set.now selected }
{
    let Some(id) = selected else {
        return true;
    };
    match set.method(id) {
        Some(method) => is_abstract(method.flags),
        None => false,
    }
}

/// What `invokespecial` calls where the current class does not declare the method.
fn select_above(set: &Hierarchy, current: u32, target: &MethodRef) -> Option<MethodId>
    ensures { result ≡ table.select_above set.now current target.now }
{
    match set.superclass(current) {
        Some(above) => set.select_named(above, &target.name, &target.desc),
        None => None,
    }
}

/// `invokespecial` in the class `current` of a method that is no `<init>`.
fn is_wrong_special(
    set: &Hierarchy,
    current: u32,
    target: &MethodRef,
    member: MethodId,
    method: &MethodDef,
) -> bool
    ensures { result ≡ table.is_wrong_special set.now current target.now member method.now }
{
    let is_above = match named_class(set, &target.class) {
        Some(named) => set.subtype(ClassId(current), named),
        None => false,
    };
    if is_abstract(method.flags) || !is_above {
        return true;
    }
    member.class != current
        && (is_private(method.flags) || lacks_body(set, select_above(set, current, target)))
}

/// An `<init>` that the named class does not declare.
fn is_init_of_another(set: &Hierarchy, target: &MethodRef, member: MethodId) -> bool
    ensures { result ≡ table.is_init_of_another set.now target.now member }
{
    is_init(target) && named_class(set, &target.class) != Some(ClassId(member.class))
}

/// A call in the class `current` that resolves to a method of the wrong kind.
fn is_wrong_method(
    set: &Hierarchy,
    current: u32,
    kind: InvokeKind,
    target: &MethodRef,
    member: MethodId,
    method: &MethodDef,
) -> bool
    ensures { result ≡ table.is_wrong_method set.now current kind target.now member method.now }
{
    if (kind == InvokeKind::Static) != is_static(method.flags) {
        return true;
    }
    if is_selected_call(kind) && is_private(method.flags) {
        return true;
    }
    if is_init_of_another(set, target, member) {
        return true;
    }
    kind == InvokeKind::Special
        && !is_init(target)
        && is_wrong_special(set, current, target, member, method)
}

fn is_wrong_call(set: &Hierarchy, current: u32, kind: InvokeKind, target: &MethodRef) -> bool
    ensures { result ≡ table.is_wrong_call set.now current kind target.now }
{
    if is_wrong_reference(set, kind, target) {
        return true;
    }
    let Some(member) = set.resolve_method(target) else {
        return false;
    };
    match set.method(member) {
        Some(method) => is_wrong_method(set, current, kind, target, member, method),
        None => false,
    }
}

fn is_wrong_static(set: &Hierarchy, field: &FieldRef) -> bool
    ensures { result ≡ table.finds_field set.now field.now (λ found. not (flags.is_static found.flags)) }
{
    match resolved_field(set, field) {
        Some(found) => !is_static(found.flags),
        None => false,
    }
}

fn is_wrong_put(set: &Hierarchy, field: &FieldRef) -> bool
    ensures { result ≡ table.finds_field set.now field.now (λ found. not (flags.is_static found.flags) || is_some found.constant) }
{
    match resolved_field(set, field) {
        Some(found) => !is_static(found.flags) || found.constant.is_some(),
        None => false,
    }
}

fn is_wrong_instance(set: &Hierarchy, field: &FieldRef) -> bool
    ensures { result ≡ table.finds_field set.now field.now (λ found. flags.is_static found.flags) }
{
    match resolved_field(set, field) {
        Some(found) => is_static(found.flags),
        None => false,
    }
}

fn is_wrong_new(set: &Hierarchy, name: &Name) -> bool
    ensures { result ≡ table.is_class set.now (λ class. flags.is_abstract class.flags || flags.is_interface class) (find_class set.now name.now) }
{
    let Some(id) = set.find_name(name) else {
        return false;
    };
    match set.class_at(id) {
        Some(class) => is_abstract(class.flags) || is_interface(class),
        None => false,
    }
}

/// Whether an instruction of the class `current` names a member or a class of the wrong kind.
#[tactic(auto, unfolding(crate::specs::Calls::is_wrong))]
fn is_wrong(set: &Hierarchy, current: u32, insn: &Insn) -> bool
    ensures { result ≡ table.is_wrong set.now current insn.now }
{
    match insn {
        Insn::GetStatic(field) => is_wrong_static(set, field),
        Insn::PutStatic(field) => is_wrong_put(set, field),
        Insn::GetField(field) | Insn::PutField(field) => is_wrong_instance(set, field),
        Insn::Invoke(kind, target) => is_wrong_call(set, current, *kind, target),
        Insn::New(name) => is_wrong_new(set, name),
        _ => false,
    }
}

impl InsnRule for Fits<'_> {
    ghost told = { λ rule current insn. table.if_wrong_kind rule.set.now current insn };

    fn judge(&self, alloc: Global, current: u32, insn: &Insn) -> Result<Option<Name>, AllocError> {
        if is_wrong(self.set, current, insn) {
            Ok(Some(insn_text(alloc, insn)?))
        } else {
            Ok(None)
        }
    }
}
