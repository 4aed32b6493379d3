//! The operands of switches.

ghost use Rattle.std.specs.Prelude.{◌≡◌, suc, ◌<◌, ◌≤◌, ◌^◌, IfOk};
ghost use Rattle.class_input.specs.Reading.{Gives, GivesBy, each, many, seen};
ghost use Rattle.insn_code.specs.InsnReading as reading;

use crate::operands::{Read, demand, signed};
use crate::unlinked::Unlinked;
use class_input::Input;
use lists::Seq;
use std::alloc::Global;

/// A byte of padding.
fn any_byte(input: &mut Input) -> Read<()>
    ensures { GivesBy (λ _. tt) result input.new (reading.any_byte tt (seen input.old)) }
{
    input.u8()?;
    Ok(())
}

/// Passes over the bytes between the opcode of a switch at `pc` and its operands.
#[tactic(auto, using(class_input::proofs::Loops::each_goes_on, class_input::proofs::Loops::each_ends, class_input::proofs::Loops::each_is_done))]
fn skip_padding(pc: usize, input: &mut Input) -> Read<()>
    ensures { GivesBy (λ _. tt) result input.new (reading.pad pc (seen input.old)) }
{
    for _ in 0..3 - pc % 4 {
        any_byte(input)?;
    }
    Ok(())
}

/// So many distances.
#[tactic(auto, using(class_input::proofs::Loops::many_goes_on, class_input::proofs::Loops::many_ends, class_input::proofs::Loops::each_is_done))]
fn distances(alloc: Global, count: usize, input: &mut Input) -> Read<Seq<i32>>
    ensures { Gives result input.new (many count reading.signed (seen input.old)) }
{
    let mut distances = Seq::new(alloc);
    for _ in 0..count {
        let distance = signed(input)?;
        distances.push(distance)?;
    }
    Ok(distances)
}

/// `tableswitch`, whose opcode stands at `pc`.
#[tactic(auto, unfolding(crate::specs::InsnReading::table_switch))]
pub(crate) fn table_switch(alloc: Global, pc: usize, input: &mut Input) -> Read<Unlinked>
    ensures { Gives result input.new (reading.table_switch pc (seen input.old)) }
{
    skip_padding(pc, input)?;
    let default = signed(input)?;
    let low = signed(input)?;
    let place = input.at;
    let high = signed(input)?;
    demand(place, low <= high)?;
    let distances = distances(alloc, high.abs_diff(low) as usize + 1, input)?;
    Ok(Unlinked::Table {
        low,
        default,
        distances,
    })
}

/// Rows so far, and the last key of them.
#[derive(Drop)]
struct Rows {
    rows: Seq<(i32, i32)>,
    last: Option<i32>,
}

/// Whether a key is above the one before it.
fn is_above(last: Option<i32>, key: i32) -> bool
    ensures { result ≡ reading.is_above last key }
{
    match last {
        None => true,
        Some(bound) => bound < key,
    }
}

/// A key above the one before it, and a distance.
#[tactic(auto, unfolding(crate::specs::InsnReading::row))]
fn row(so_far: &mut Rows, input: &mut Input) -> Read<()>
    ensures { GivesBy (λ _. so_far.new) result input.new (reading.row so_far.old (seen input.old)) }
{
    let place = input.at;
    let key = signed(input)?;
    demand(place, is_above(so_far.last, key))?;
    let distance = signed(input)?;
    so_far.rows.push((key, distance))?;
    so_far.last = Some(key);
    Ok(())
}

/// So many rows, the keys strictly ascending.
#[tactic(auto, using(class_input::proofs::Loops::each_goes_on, class_input::proofs::Loops::each_ends, class_input::proofs::Loops::each_is_done))]
fn key_rows(alloc: Global, count: usize, input: &mut Input) -> Read<Rows>
    ensures { Gives result input.new (each count reading.row reading.no_rows (seen input.old)) }
{
    let mut so_far = Rows {
        rows: Seq::new(alloc),
        last: None,
    };
    for _ in 0..count {
        row(&mut so_far, input)?;
    }
    Ok(so_far)
}

/// `lookupswitch`, whose opcode stands at `pc`.
#[tactic(auto, unfolding(crate::specs::InsnReading::lookup_switch))]
pub(crate) fn lookup_switch(alloc: Global, pc: usize, input: &mut Input) -> Read<Unlinked>
    ensures { Gives result input.new (reading.lookup_switch pc (seen input.old)) }
{
    skip_padding(pc, input)?;
    let default = signed(input)?;
    let place = input.at;
    let count = signed(input)?;
    demand(place, 0 <= count)?;
    let found = key_rows(alloc, count.unsigned_abs() as usize, input)?;
    Ok(Unlinked::Lookup {
        default,
        rows: found.rows,
    })
}
