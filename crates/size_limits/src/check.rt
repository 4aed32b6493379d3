//! The first number of size that passes its bound.

ghost use Rattle.std.specs.Prelude.{◌≡◌, ◌≤◌, ◌<◌, ◌^◌, length, Some, IfOk, IfErr};
ghost use Rattle.size_limits.specs.Limits as limits;

use crate::limit::{ClassLimit, LimitKind, LimitStop};
use crate::lists_by_class::ListsByClass;
use crate::measure::Measure;
use crate::method::{Locals, Params, Stacks, Weights, members_number};
use crate::names::text_number;
use crate::pool::pool_number;
use class_model::{ClassDef, MethodDef};
use run_state::Config;
use std::alloc::{AllocError, Global};

/// A number, where it passes its bound.
fn passed(kind: LimitKind, bound: u64, method: Option<u32>, number: u64) -> Option<ClassLimit>
    ensures { result ≡ limits.passed kind bound method number }
{
    if number > bound {
        Some(ClassLimit {
            kind,
            method,
            number,
        })
    } else {
        None
    }
}

/// The number of a method, where it passes its bound.
#[tactic(auto, using(crate::proofs::First::passed_told))]
fn method_passed<M: Measure<MethodDef>>(
    measure: &M,
    kind: LimitKind,
    bound: u64,
    at: u32,
    method: &MethodDef,
) -> Option<ClassLimit>
    requires { bound ≤ 65535 }
    ensures { result ≡ limits.passed kind bound (Some at) (M.measure method.now) }
{
    passed(kind, bound, Some(at), measure.measure(method))
}

/// The first method whose number passes a bound.
#[tactic(auto, using(crate::proofs::First::none_yet, crate::proofs::First::none_more, crate::proofs::First::none_in_all))]
fn first_method<M: Measure<MethodDef>>(
    measure: &M,
    kind: LimitKind,
    bound: u64,
    methods: &[MethodDef],
) -> Option<ClassLimit>
    requires bounded { bound ≤ 65535 }
    requires numbered { length methods.now < 2 ^ 32 }
    ensures { result ≡ limits.first_from (λ at method. limits.passed kind bound (Some at) (M.measure method)) 0 methods.now }
{
    for (at, method) in methods.iter().enumerate() {
        if let Some(limit) = method_passed(measure, kind, bound, at as u32, method) {
            return Some(limit);
        }
    }
    None
}

#[tactic(auto, unfolding(crate::specs::Limits::parameters_row))]
fn parameters_limit(class: &ClassDef) -> Option<ClassLimit>
    requires { length class.now.methods < 2 ^ 32 }
    ensures { result ≡ limits.parameters_row class.now }
{
    first_method(
        &Params,
        LimitKind::ParamsTooMany,
        255,
        class.methods.as_slice(),
    )
}

#[tactic(auto, unfolding(crate::specs::Limits::locals_row))]
fn locals_limit(class: &ClassDef) -> Option<ClassLimit>
    requires { length class.now.methods < 2 ^ 32 }
    ensures { result ≡ limits.locals_row class.now }
{
    first_method(
        &Locals,
        LimitKind::LocalsTooMany,
        65_535,
        class.methods.as_slice(),
    )
}

#[tactic(auto, unfolding(crate::specs::Limits::stack_row))]
fn stack_limit(class: &ClassDef) -> Option<ClassLimit>
    requires { length class.now.methods < 2 ^ 32 }
    ensures { result ≡ limits.stack_row class.now }
{
    first_method(
        &Stacks,
        LimitKind::StackTooDeep,
        65_535,
        class.methods.as_slice(),
    )
}

#[tactic(auto, unfolding(crate::specs::Limits::code_row))]
fn code_limit(class: &ClassDef) -> Option<ClassLimit>
    requires { length class.now.methods < 2 ^ 32 }
    ensures { result ≡ limits.code_row class.now }
{
    first_method(
        &Weights,
        LimitKind::CodeTooLong,
        65_535,
        class.methods.as_slice(),
    )
}

/// The first of the numbers of the methods of a class that passes its bound, row by row.
#[tactic(auto, unfolding(crate::specs::Limits::method_rows))]
fn method_limit(class: &ClassDef) -> Option<ClassLimit>
    requires { length class.now.methods < 2 ^ 32 }
    ensures { result ≡ limits.method_rows class.now }
{
    parameters_limit(class)
        .or(locals_limit(class))
        .or(stack_limit(class))
        .or(code_limit(class))
}

/// The first number of a class that passes its bound.
#[tactic(auto, unfolding(crate::specs::Limits::class_limit), using(crate::proofs::First::passed_told))]
fn class_limit(
    alloc: Global,
    lists: &ListsByClass<'_>,
    class: &ClassDef,
) -> Result<Option<ClassLimit>, AllocError>
    ensures { IfOk result (λ found. found ≡ limits.class_limit lists.now class.now) }
{
    if let Some(limit) = passed(LimitKind::TextTooLong, 16_000, None, text_number(class)) {
        return Ok(Some(limit));
    }
    if let Some(limit) = passed(
        LimitKind::MembersTooMany,
        65_535,
        None,
        members_number(class),
    ) {
        return Ok(Some(limit));
    }
    let number = pool_number(alloc, lists, class)?;
    if let Some(limit) = passed(LimitKind::PoolFull, 65_535, None, number) {
        return Ok(Some(limit));
    }
    Ok(method_limit(class))
}

/// The first number of size of classes that passes its bound: class by class, within a class in the order of
/// `LimitKind`, and for a kind that is of methods the methods in file order. Takes memory for what a class names, and
/// once for the classes that the lists name.
#[tactic(auto, unfolding(crate::specs::Limits::first_limit), using(crate::proofs::First::none_yet, crate::proofs::First::none_more, crate::proofs::First::none_in_all))]
pub fn check_limits(alloc: Global, classes: &[ClassDef], config: &Config) -> Result<(), LimitStop>
    requires { length classes.now ≤ 1001000 }
    ensures tells { limits.Tells result (limits.first_limit config.now classes.now) }
    ensures of_size { IfErr result limits.IsOfSize }
{
    let lists = ListsByClass::of(alloc, config)?;
    for (at, class) in classes.iter().enumerate() {
        if let Some(limit) = class_limit(alloc, &lists, class)? {
            return Err(LimitStop::Limit {
                kind: limit.kind,
                class: at as u32,
                method: limit.method,
                number: limit.number,
            });
        }
    }
    Ok(())
}
