//! The line of a refusal of the loader.

ghost use Rattle.std.specs.Prelude.{◌≡◌, ◌++◌, length, IfOk, OnOk};
ghost use Rattle.modified_utf8.specs.Text.{text_bytes};
ghost use Rattle.set_loader.specs.Loads.{IsWithin};
ghost use Rattle.command_parts.specs.LoadLines as lines;

use crate::kinds::{kind_text, profile_text, rule_text, set_text};
use class_input::BadKind;
use class_set::SetFault;
use lists::{Bytes, Name, Seq};
use modified_utf8::units_text;
use profile_check::ProfileKind;
use set_loader::{File, LoadStop};
use std::alloc::{AllocError, Global};
use type_rows::VerifyRule;

/// Puts a text behind a line.
pub(crate) fn add(line: &mut Vec<u8>, text: &str) -> Result<(), AllocError>
    ensures { OnOk result (line.new.items ≡ line.old.items ++ text.now) }
{
    line.extend_from_slice(text.as_bytes())?;
    Ok(())
}

/// Puts a name behind a line, as it stands in a class file.
pub(crate) fn add_name(alloc: Global, line: &mut Vec<u8>, name: &Name) -> Result<(), AllocError>
    ensures { OnOk result (line.new.items ≡ line.old.items ++ text_bytes name.now) }
{
    let text = units_text(alloc, name.as_units())?;
    line.extend_from_slice(text.as_slice())?;
    Ok(())
}

/// The line of a file that is no class file, by its path, its first bad place and the kind.
fn bad_line(alloc: Global, path: &str, place: usize, kind: BadKind) -> Result<Bytes, AllocError>
    ensures { IfOk result (λ line. line ≡ lines.bad_line path.now place kind) }
{
    let kind = kind_text(alloc, kind)?;
    let place = place.to_string(alloc)?;
    let mut line = Vec::new(alloc);
    add(&mut line, "refused: ")?;
    add(&mut line, path)?;
    add(&mut line, ": byte ")?;
    add(&mut line, &place)?;
    add(&mut line, ": ")?;
    add(&mut line, &kind)?;
    line.push(b'\n')?;
    Ok(Seq::from_vec(line))
}

/// The line of a file whose class is out of the profile, by its path and the row.
fn profile_line(alloc: Global, path: &str, kind: &ProfileKind) -> Result<Bytes, AllocError>
    ensures { IfOk result (λ line. line ≡ lines.profile_line path.now kind.now) }
{
    let kind = profile_text(alloc, kind)?;
    let mut line = Vec::new(alloc);
    add(&mut line, "refused: ")?;
    add(&mut line, path)?;
    add(&mut line, ": profile: ")?;
    line.extend_from_slice(kind.as_slice())?;
    line.push(b'\n')?;
    Ok(Seq::from_vec(line))
}

/// The line of classes that are no closed set.
fn set_line(alloc: Global, fault: &SetFault) -> Result<Bytes, AllocError>
    ensures { IfOk result (λ line. line ≡ lines.set_line fault.now) }
{
    let fault = set_text(alloc, fault)?;
    let mut line = Vec::new(alloc);
    add(&mut line, "refused: set: ")?;
    line.extend_from_slice(fault.as_slice())?;
    line.push(b'\n')?;
    Ok(Seq::from_vec(line))
}

/// The line of a method that does not verify, by its names, the instruction and the rule.
fn types_line(
    alloc: Global,
    class: &Name,
    name: &Name,
    desc: &Name,
    at: u32,
    rule: VerifyRule,
) -> Result<Bytes, AllocError>
    ensures { IfOk result (λ line. line ≡ lines.types_line class.now name.now desc.now at rule) }
{
    let at = at.to_string(alloc)?;
    let mut line = Vec::new(alloc);
    add(&mut line, "refused: ")?;
    add_name(alloc, &mut line, class)?;
    add(&mut line, ".")?;
    add_name(alloc, &mut line, name)?;
    add_name(alloc, &mut line, desc)?;
    add(&mut line, ": instruction ")?;
    add(&mut line, &at)?;
    add(&mut line, ": ")?;
    add(&mut line, rule_text(rule))?;
    line.push(b'\n')?;
    Ok(Seq::from_vec(line))
}

/// The line of a refusal of the loader, of these files; for want of memory, no line.
pub fn load_line(alloc: Global, stop: &LoadStop, files: &[File]) -> Result<Bytes, AllocError>
    requires { IsWithin stop.now (length files.now) }
    ensures { IfOk result (λ line. line ≡ lines.load_line files.now stop.now) }
{
    match stop {
        LoadStop::Bad { file, place, kind } => {
            bad_line(alloc, files[*file as usize].path.as_str(), *place, *kind)
        }
        LoadStop::Profile { file, fault } => {
            profile_line(alloc, files[*file as usize].path.as_str(), &fault.kind)
        }
        LoadStop::Set(fault) => set_line(alloc, fault),
        LoadStop::Unverified {
            class,
            name,
            desc,
            at,
            rule,
        } => types_line(alloc, class, name, desc, *at, *rule),
        LoadStop::Memory => Ok(Seq::new(alloc)),
    }
}
