//! Branches by the numbers of the instructions that they lead to.

ghost use Rattle.std.specs.Prelude.{◌≡◌, ◌<◌, ◌^◌};
ghost use Rattle.class_input.specs.declared.bad_class.BadKind.TheVariants.{Target};
ghost use Rattle.class_input.specs.Reading.{Answers};
ghost use Rattle.class_names.specs.Steps.{fit};
ghost use Rattle.insn_code.specs.Linking as linking;
ghost use Rattle.insn_code.specs.CodeReading.{linked};

use crate::operands::Read;
use crate::shapes::branch;
use crate::starts::Starts;
use crate::unlinked::Unlinked;
use class_input::{BadClass, BadKind};
use class_model::Insn;
use lists::Seq;
use std::alloc::Global;

/// The number of the instruction to which an opcode at `pc`, which stands at a place of the file, leads.
fn lead(place: usize, starts: &Starts, pc: u32, distance: i32) -> Read<u32>
    ensures { Answers (λ target. target) result (fit place Target (linking.lead starts.now.starts pc distance)) }
{
    starts
        .number(i64::from(pc) + i64::from(distance))
        .ok_or(BadClass::Bad {
            place,
            kind: BadKind::Target,
        })
}

/// The same for each of some distances.
#[tactic(auto)]
fn leads(alloc: Global, place: usize, starts: &Starts, pc: u32, distances: &[i32]) -> Read<Seq<u32>>
    ensures { Answers (λ targets. targets) result (fit place Target (linking.all_of (linking.lead starts.now.starts pc) distances.now)) }
{
    let mut targets = Seq::with_capacity(alloc, distances.len())?;
    for distance in distances {
        let target = lead(place, starts, pc, *distance)?;
        targets.push(target)?;
    }
    Ok(targets)
}

/// A key with the number of the instruction to which its distance leads.
fn row_lead(place: usize, starts: &Starts, pc: u32, row: (i32, i32)) -> Read<(i32, u32)>
    ensures { Answers (λ row. row) result (fit place Target (linking.row_lead starts.now.starts pc row)) }
{
    let (key, distance) = row;
    let target = lead(place, starts, pc, distance)?;
    Ok((key, target))
}

/// The same for each of some rows.
#[tactic(auto)]
fn row_leads(
    alloc: Global,
    place: usize,
    starts: &Starts,
    pc: u32,
    rows: &[(i32, i32)],
) -> Read<Seq<(i32, u32)>>
    ensures { Answers (λ targets. targets) result (fit place Target (linking.all_of (linking.row_lead starts.now.starts pc) rows.now)) }
{
    let mut targets = Seq::with_capacity(alloc, rows.len())?;
    for row in rows {
        let target = row_lead(place, starts, pc, *row)?;
        targets.push(target)?;
    }
    Ok(targets)
}

/// An instruction whose opcode stands at `pc` and at a place of the file.
#[tactic(auto, unfolding(crate::specs::Linking::link))]
fn link_insn(alloc: Global, place: usize, starts: &Starts, pc: u32, insn: Unlinked) -> Read<Insn>
    ensures { Answers (λ insn. insn) result (fit place Target (linking.link starts.now.starts pc insn)) }
{
    match insn {
        Unlinked::Whole(insn) => Ok(insn),
        Unlinked::Jump(opcode, distance) => Ok(branch(opcode, lead(place, starts, pc, distance)?)),
        Unlinked::Table {
            low,
            default,
            distances,
        } => Ok(Insn::TableSwitch {
            low,
            default: lead(place, starts, pc, default)?,
            targets: leads(alloc, place, starts, pc, distances.as_slice())?,
        }),
        Unlinked::Lookup { default, rows } => Ok(Insn::LookupSwitch {
            default: lead(place, starts, pc, default)?,
            rows: row_leads(alloc, place, starts, pc, rows.as_slice())?,
        }),
    }
}

/// The instructions of code that begins at a place of the file. One that leads to no instruction is refused at its
/// opcode.
pub(crate) fn link(
    alloc: Global,
    place: usize,
    starts: &Starts,
    placed: Seq<(u32, Unlinked)>,
) -> Read<Seq<Insn>>
    requires { place < 2 ^ 63 }
    ensures { Answers (λ insns. insns) result (linked place starts.now.starts placed) }
{
    let mut insns = Seq::with_capacity(alloc, placed.len())?;
    for (pc, insn) in placed.into_vec() {
        let insn = link_insn(alloc, place + pc as usize, starts, pc, insn)?;
        insns.push(insn)?;
    }
    Ok(insns)
}
