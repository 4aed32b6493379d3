//! The walk over a whole class: each part of it, with its place.

ghost use Rattle.std.specs.Prelude.{◌≡◌, ◌≤◌, ◌<◌, ◌+◌, Some, All, IfSome, map, flat_map, length};
ghost use Rattle.profile_check.specs.Answer.{Tells};
ghost use Rattle.profile_check.specs.First.{first, flat_from};
ghost use Rattle.profile_check.specs.Mentions as mention;
ghost use Rattle.profile_check.specs.Walks.{judge_placed, walk_row};
ghost use Rattle.profile_check.specs.Profile.{IsCounted, IsCodeCounted};

use crate::profile::ProfileStop;
use crate::rule::{Place, Rule};
use crate::walk::Walk;
use class_model::{ClassDef, CodeDef, FieldDef, Insn, MethodDef};

/// A row in a member.
fn in_member(rule: Rule, member: u32) -> Walk
    ensures { result ≡ record { rule = rule; place = mention.in_member member } }
{
    Walk {
        rule,
        place: Place {
            member: Some(member),
            at: None,
        },
    }
}

/// A row at an instruction.
fn in_insn(rule: Rule, member: u32, at: u32) -> Walk
    ensures { result ≡ record { rule = rule; place = mention.in_insn member at } }
{
    Walk {
        rule,
        place: Place {
            member: Some(member),
            at: Some(at),
        },
    }
}

/// A row outside the members.
fn outside(rule: Rule) -> Walk
    ensures { result ≡ record { rule = rule; place = mention.outside } }
{
    Walk {
        rule,
        place: Place {
            member: None,
            at: None,
        },
    }
}

fn walk_insns(rule: Rule, member: u32, insns: &[Insn]) -> Result<(), ProfileStop>
    requires { length insns.now ≤ 65535 }
    ensures { Tells result (first (judge_placed rule) (flat_from (mention.insn_placed member) 0 insns.now)) }
{
    for (at, insn) in insns.iter().enumerate() {
        in_insn(rule, member, at as u32).insn(insn)?;
    }
    Ok(())
}

fn walk_code(rule: Rule, member: u32, code: &CodeDef) -> Result<(), ProfileStop>
    requires { IsCodeCounted code.now }
    ensures { Tells result (first (judge_placed rule) (mention.code_mentions member (Some code.now))) }
{
    walk_insns(rule, member, code.insns.as_slice())?;
    let walk = in_member(rule, member);
    walk.handlers(code.handlers.as_slice())?;
    walk.frames(code.frames.as_slice())
}

#[tactic(auto, using(crate::proofs::First::first_nil))]
fn walk_optional_code(rule: Rule, member: u32, code: &Option<CodeDef>) -> Result<(), ProfileStop>
    requires { IfSome code.now IsCodeCounted }
    ensures { Tells result (first (judge_placed rule) (mention.code_mentions member code.now)) }
{
    match code {
        Some(code) => walk_code(rule, member, code),
        None => Ok(()),
    }
}

fn walk_method(rule: Rule, member: u32, method: &MethodDef) -> Result<(), ProfileStop>
    requires { IfSome method.now.code IsCodeCounted }
    ensures { Tells result (first (judge_placed rule) (mention.method_mentions member method.now)) }
{
    let walk = in_member(rule, member);
    walk.method(method)?;
    walk_optional_code(rule, member, &method.code)?;
    walk.class_names(method.throws.as_slice())
}

fn walk_fields(rule: Rule, fields: &[FieldDef]) -> Result<(), ProfileStop>
    requires { length fields.now ≤ 65535 }
    ensures { Tells result (first (judge_placed rule) (flat_from mention.field_placed 0 fields.now)) }
{
    for (k, field) in fields.iter().enumerate() {
        in_member(rule, k as u32).field(field)?;
    }
    Ok(())
}

/// The methods, whose numbers begin behind those of the fields.
fn walk_methods(rule: Rule, fields: usize, methods: &[MethodDef]) -> Result<(), ProfileStop>
    requires few_fields { fields ≤ 65535 }
    requires few_methods { length methods.now ≤ 65535 }
    requires codes { All (λ method. IfSome method.code IsCodeCounted) methods.now }
    ensures { Tells result (first (judge_placed rule) (flat_from mention.method_mentions fields methods.now)) }
{
    for (k, method) in methods.iter().enumerate() {
        walk_method(rule, (fields + k) as u32, method)?;
    }
    Ok(())
}

/// The first thing that a class names and that a row refuses.
pub fn walk_class(rule: Rule, class: &ClassDef) -> Result<(), ProfileStop>
    requires { IsCounted class.now }
    ensures { Tells result (walk_row rule class.now) }
{
    let walk = outside(rule);
    walk.header(class)?;
    walk_fields(rule, class.fields.as_slice())?;
    walk_methods(rule, class.fields.len(), class.methods.as_slice())?;
    walk.inner_rows(class.inner.as_slice())
}
