//! Linking methods.

ghost use Rattle.std.specs.Prelude.{◌≡◌, ◌<◌, ◌+◌, Some, None, OnOk, IfOk, length, slice_get, if◌then◌else◌};
ghost use Rattle.std.specs.Option.{option_copied};
ghost use Rattle.set_lookups.specs.Above.{find_class};
ghost use Rattle.class_set.specs.Closed.{Closed};
ghost use Rattle.run_state.specs.SetLooks.{method_of, is_initializer};
ghost use Rattle.program_links.specs.Before.{AreBefore};
ghost use Rattle.program_links.specs.Each.{EachTo};
ghost use Rattle.program_links.specs.Methods.{set_methods, methods_before};
ghost use Rattle.program_links.specs.BodyTo.{CanLink, BodyTo};
ghost use Rattle.program_links.specs.MethodTo.{NameTo, NativeTo, MethodTo};
ghost use Rattle.program_links.specs.Numbers.{Grows};

use crate::before::{Before, is_static};
use crate::calls::words_of_call;
use crate::handlers::link_handlers;
use crate::kinds::narrowing_of_result;
use crate::linking::link_code;
use crate::natives::{is_text, native_of};
use crate::tables::Tables;
use class_model::{ClassDef, CodeDef, MethodDef};
use class_set::{ClassId, ClassSet};
use linked_code::{Handler, Method, Native, Op};
use lists::Seq;
use std::alloc::{AllocError, Global};

/// What a method has of its code.
#[derive(Drop)]
pub struct Body {
    pub locals: u32,
    pub room: u32,
    pub code: Seq<Op>,
    pub handlers: Seq<Handler>,
}

#[tactic(auto, using(crate::proofs::Bodies::no_body))]
fn no_body(alloc: Global, _set: &ClassSet, _tables: &Tables) -> Body
    ensures { BodyTo _set.now _tables.now None result }
{
    Body {
        locals: 0,
        room: 0,
        code: Seq::new(alloc),
        handlers: Seq::new(alloc),
    }
}

#[tactic(auto, using(crate::proofs::Bodies::one_body))]
fn some_body(
    alloc: Global,
    set: &ClassSet,
    before: &Seq<Before>,
    tables: &mut Tables,
    code: &CodeDef,
) -> Result<Body, AllocError>
    requires closed { Closed set.now }
    requires rows { AreBefore set.now before.now (length set.now) }
    requires ready { CanLink set.now (Some code.now) }
    ensures grows { OnOk result (Grows tables.old tables.new) }
    ensures is { IfOk result (λ body. BodyTo set.now tables.new (Some code.now) body) }
{
    let handlers = link_handlers(alloc, set, &code.handlers)?;
    let ops = link_code(alloc, set, before, tables, &code.insns)?;
    Ok(Body {
        locals: u32::from(code.max_locals),
        room: u32::from(code.max_stack),
        code: ops,
        handlers,
    })
}

/// Links what a method has of code.
fn link_body(
    alloc: Global,
    set: &ClassSet,
    before: &Seq<Before>,
    tables: &mut Tables,
    code: Option<&CodeDef>,
) -> Result<Body, AllocError>
    requires closed { Closed set.now }
    requires rows { AreBefore set.now before.now (length set.now) }
    requires ready { CanLink set.now (option_copied code) }
    ensures grows { OnOk result (Grows tables.old tables.new) }
    ensures is { IfOk result (λ body. BodyTo set.now tables.new (option_copied code.entry) body) }
{
    match code {
        Some(code) => some_body(alloc, set, before, tables, code),
        None => Ok(no_body(alloc, set, tables)),
    }
}

/// The native that a method is.
fn native(class: &ClassDef, method: &MethodDef) -> Option<Native>
    ensures { NativeTo (method_of class.now method.now).native result }
{
    if method.flags & 256 != 0 {
        native_of(&class.name, &method.name, &method.desc)
    } else {
        None
    }
}

/// The class that a method begins, by number.
fn begins(_set: &ClassSet, number: u32, class: &ClassDef, method: &MethodDef) -> Option<u32>
    requires { find_class _set.now class.now.name ≡ Some number }
    ensures { NameTo _set.now (method_of class.now method.now).begins result }
{
    if is_text(&method.name, "<clinit>") {
        Some(number)
    } else {
        None
    }
}

/// Links a method of a class.
#[tactic(auto, using(crate::proofs::Bodies::method_linked))]
pub fn link_method(
    alloc: Global,
    set: &ClassSet,
    before: &Seq<Before>,
    tables: &mut Tables,
    number: u32,
    class: &ClassDef,
    method: &MethodDef,
) -> Result<Method, AllocError>
    requires closed { Closed set.now }
    requires rows { AreBefore set.now before.now (length set.now) }
    requires named { find_class set.now class.now.name ≡ Some number }
    requires ready { CanLink set.now method.now.code }
    ensures grows { OnOk result (Grows tables.old tables.new) }
    ensures is { IfOk result (λ m. MethodTo set.now tables.new (method_of class.now method.now) m) }
{
    let params = words_of_call(&method.desc, !is_static(method.flags))?;
    let body = link_body(alloc, set, before, tables, method.code.as_ref())?;
    let narrowing = narrowing_of_result(method.desc.result.as_ref());
    Ok(Method {
        class: number,
        params,
        locals: body.locals,
        room: body.room,
        code: body.code,
        handlers: body.handlers,
        native: native(class, method),
        begins: begins(set, number, class, method),
        narrowing,
    })
}

/// Links the methods of a class, behind those of the classes in front of it.
fn link_class(
    alloc: Global,
    set: &ClassSet,
    before: &Seq<Before>,
    tables: &mut Tables,
    number: u32,
    methods: &mut Seq<Method>,
) -> Result<(), AllocError>
    requires closed { Closed set.now }
    requires rows { AreBefore set.now before.now (length set.now) }
    requires there { number < length set.now }
    requires so_far { EachTo (MethodTo set.now tables.old) (set_methods set.now) methods.old (methods_before set.now number) }
    ensures grows { OnOk result (Grows tables.old tables.new) }
    ensures is { OnOk result (EachTo (MethodTo set.now tables.new) (set_methods set.now) methods.new (methods_before set.now (number + 1))) }
{
    let class = set.class(ClassId(number));
    for index in 0..class.methods.len() {
        let method = class.methods.at(index);
        let linked = link_method(alloc, set, before, tables, number, class, method)?;
        methods.push(linked)?;
    }
    Ok(())
}

/// Links the methods of all classes, in their order.
pub fn link_methods(
    alloc: Global,
    set: &ClassSet,
    before: &Seq<Before>,
    tables: &mut Tables,
) -> Result<Seq<Method>, AllocError>
    requires closed { Closed set.now }
    requires rows { AreBefore set.now before.now (length set.now) }
    ensures grows { OnOk result (Grows tables.old tables.new) }
    ensures is { IfOk result (λ methods. EachTo (MethodTo set.now tables.new) (set_methods set.now) methods (length (set_methods set.now))) }
{
    let mut methods = Seq::new(alloc);
    for number in 0..set.len() {
        link_class(alloc, set, before, tables, number, &mut methods)?;
    }
    Ok(methods)
}
