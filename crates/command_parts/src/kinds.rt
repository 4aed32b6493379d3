//! The texts of the kinds that refusals have.

ghost use Rattle.std.specs.Prelude.{◌≡◌, ◌++◌, IfOk, string_bytes};
ghost use Rattle.modified_utf8.specs.Text.{text_bytes};
ghost use Rattle.command_parts.specs.Kinds as texts;

use class_input::BadKind;
use class_set::SetFault;
use lists::{Bytes, Name, Seq};
use modified_utf8::units_text;
use profile_check::ProfileKind;
use std::alloc::{AllocError, Global};
use type_rows::VerifyRule;

/// What is wrong at a place of a class file.
pub(crate) fn kind_text(alloc: Global, kind: BadKind) -> Result<String, AllocError>
    ensures { IfOk result (λ text. string_bytes text ≡ texts.kind_text kind) }
{
    match kind {
        BadKind::Short => String::from_str(alloc, "short"),
        BadKind::Magic => String::from_str(alloc, "magic"),
        BadKind::PoolTag(n) => format!(in alloc; "pool tag {n}"),
        BadKind::PoolCount => String::from_str(alloc, "pool count"),
        BadKind::PoolIndex(n) => format!(in alloc; "pool index {n}"),
        BadKind::PoolKind(n) => format!(in alloc; "pool kind {n}"),
        BadKind::Text => String::from_str(alloc, "text"),
        BadKind::Descriptor => String::from_str(alloc, "descriptor"),
        BadKind::Code(n) => format!(in alloc; "opcode {n}"),
        BadKind::Operand => String::from_str(alloc, "operand"),
        BadKind::Target => String::from_str(alloc, "target"),
        BadKind::Frame(n) => format!(in alloc; "frame {n}"),
        BadKind::AttrLength => String::from_str(alloc, "attribute length"),
        BadKind::Twice => String::from_str(alloc, "twice"),
        BadKind::CodeLength => String::from_str(alloc, "code length"),
        BadKind::Trailing => String::from_str(alloc, "trailing"),
    }
}

/// A text by itself.
fn word(alloc: Global, text: &str) -> Result<Bytes, AllocError>
    ensures { IfOk result (λ bytes. bytes ≡ text.now) }
{
    Ok(Seq::from_vec(Vec::from_slice(alloc, text.as_bytes())?))
}

/// A text with a name behind it.
fn named(alloc: Global, text: &str, name: &Name) -> Result<Bytes, AllocError>
    ensures { IfOk result (λ bytes. bytes ≡ text.now ++ text_bytes name.now) }
{
    let name = units_text(alloc, name.as_units())?;
    let mut bytes = Vec::from_slice(alloc, text.as_bytes())?;
    bytes.extend_from_slice(name.as_slice())?;
    Ok(Seq::from_vec(bytes))
}

fn version_text(alloc: Global, major: u16) -> Result<Bytes, AllocError>
    ensures { IfOk result (λ bytes. bytes ≡ texts.profile_text (ProfileKind.Version major)) }
{
    let text = format!(in alloc; "version {major}")?;
    Ok(Seq::from_vec(text.into_bytes()))
}

/// By which row a class is out of the profile.
pub(crate) fn profile_text(alloc: Global, kind: &ProfileKind) -> Result<Bytes, AllocError>
    ensures { IfOk result (λ bytes. bytes ≡ texts.profile_text kind.now) }
{
    match kind {
        ProfileKind::Version(major) => version_text(alloc, *major),
        ProfileKind::ClassFlags => word(alloc, "class flags"),
        ProfileKind::FieldFlags => word(alloc, "field flags"),
        ProfileKind::MethodFlags => word(alloc, "method flags"),
        ProfileKind::FloatType => word(alloc, "float type"),
        ProfileKind::BadName => word(alloc, "bad name"),
        ProfileKind::Reserved(name) => named(alloc, "reserved ", name),
        ProfileKind::CodeShape => word(alloc, "code shape"),
        ProfileKind::Native => word(alloc, "native"),
        ProfileKind::InterfaceMethod => word(alloc, "interface method"),
        ProfileKind::Initializer => word(alloc, "initializer"),
        ProfileKind::Constant => word(alloc, "constant"),
        ProfileKind::TwiceMember => word(alloc, "twice"),
        ProfileKind::Params => word(alloc, "parameters"),
        ProfileKind::Super => word(alloc, "super"),
        ProfileKind::OutName => word(alloc, "out name"),
        ProfileKind::ArrayMember => word(alloc, "array member"),
    }
}

/// Why classes are no closed set; for want of memory, no text.
pub(crate) fn set_text(alloc: Global, fault: &SetFault) -> Result<Bytes, AllocError>
    ensures { IfOk result (λ bytes. bytes ≡ texts.set_text fault.now) }
{
    match fault {
        SetFault::Duplicate(name) => named(alloc, "duplicate ", name),
        SetFault::Missing(name) => named(alloc, "missing ", name),
        SetFault::Cycle(name) => named(alloc, "cycle ", name),
        SetFault::FinalSuper(name) => named(alloc, "final super ", name),
        SetFault::Core(name) => named(alloc, "core ", name),
        SetFault::Unresolved(text) => named(alloc, "unresolved ", text),
        SetFault::WrongKind(text) => named(alloc, "wrong kind ", text),
        SetFault::Abstract(name) => named(alloc, "abstract ", name),
        SetFault::Memory => Ok(Seq::new(alloc)),
    }
}

/// The rule of the type check that fails.
pub(crate) fn rule_text(rule: VerifyRule) -> &'static str
    ensures { result.now ≡ texts.rule_text rule }
{
    match rule {
        VerifyRule::NoFrame => "no frame",
        VerifyRule::Merge => "merge",
        VerifyRule::Shape => "shape",
        VerifyRule::Handler => "handler",
        VerifyRule::Local => "local",
        VerifyRule::Operand => "operand",
        VerifyRule::Room => "room",
        VerifyRule::Branch => "branch",
        VerifyRule::Init => "init",
        VerifyRule::Result => "result",
        VerifyRule::End => "end",
    }
}
