//! Writing one instruction.

ghost use Rattle.std.specs.Prelude.{◌≡◌, ◌+◌, ◌<◌, ◌≤◌, ◌++◌, List, ℕ, length, take, drop, Ok, OnOk, OnErr};
ghost use Rattle.opcode_table.specs.Judging.{decoding};
ghost use Rattle.opcode_table.specs.Spelling.{IsWellFormed, Spells};
ghost use Rattle.opcode_table.specs.Writing.{spelling};

use crate::put::{
    put_array_type, put_byte, put_dimensions, put_increment, put_index, put_interface, put_local,
    put_lookup, put_offset, put_plain, put_short, put_table,
};
use crate::raw_insn::RawInsn;
use std::alloc::AllocError;

/// Appends the bytes of an instruction whose opcode will stand at `pc`, on which the padding of a switch
/// depends. `wide` is written only where the local is over 255 or the step passes a signed byte, and bytes of
/// padding are 0. After a refusal `out` is as before.
pub fn encode_insn(insn: &RawInsn, pc: usize, out: &mut Vec<u8>) -> Result<(), AllocError>
    requires { IsWellFormed insn.now }
    ensures ok { OnOk result (out.new.items ≡ out.old.items ++ spelling pc insn.now) }
    ensures spelled { OnOk result (Spells pc insn.now (spelling pc insn.now)) }
    ensures err { OnErr result (out.new.items ≡ out.old.items) }

    // Decoding gives the instruction back from any code that has the spelling at `pc`.
    ensures round_trip { OnOk result ((code rest : List ℕ) → drop pc code ≡ spelling pc insn.now ++ rest → decoding pc (drop pc code) ≡ Ok (insn.now, length (spelling pc insn.now))) }
{
    let before = out.len();
    let written = put(insn, pc, out);
    if written.is_err() {
        out.truncate(before);
    }
    written
}

fn put(insn: &RawInsn, pc: usize, out: &mut Vec<u8>) -> Result<(), AllocError>
    requires { IsWellFormed insn.now }
    ensures ok { OnOk result (out.new.items ≡ out.old.items ++ spelling pc insn.now) }
    ensures spelled { OnOk result (Spells pc insn.now (spelling pc insn.now)) }
    ensures err { OnErr result (take (length out.old.items) out.new.items ≡ out.old.items) }
{
    match insn {
        RawInsn::Plain(op) => put_plain(out, *op),
        RawInsn::Byte(op, n) => put_byte(out, *op, *n),
        RawInsn::Short(op, n) => put_short(out, *op, *n),
        RawInsn::Local(op, local) => put_local(out, *op, *local),
        RawInsn::Inc(local, step) => put_increment(out, *local, *step),
        RawInsn::Pool(op, index) => put_index(out, *op, *index),
        RawInsn::Jump(op, offset) => put_offset(out, *op, *offset),
        RawInsn::Table {
            low,
            default,
            offsets,
        } => put_table(out, pc, *low, *default, offsets.as_slice()),
        RawInsn::Lookup { default, rows } => put_lookup(out, pc, *default, rows.as_slice()),
        RawInsn::Interface(index, count) => put_interface(out, *index, *count),
        RawInsn::NewArray(ty) => put_array_type(out, *ty),
        RawInsn::Multi(index, dimensions) => put_dimensions(out, *index, *dimensions),
    }
}
