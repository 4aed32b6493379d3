ghost use Rattle.std.specs.Prelude.{◌<◌, length};

use crate::{CodeStop, OperandForm, RawInsn, decode_insn, encode_insn, operand_form};
use lists::Seq;
use std::alloc::Global;
use std::process::Abort;
use std::test::Fail;

#[test]
fn forms(rt: HostRuntime) {
    assert_eq!(rt; operand_form(96), OperandForm::Empty);
    assert_eq!(rt; operand_form(132), OperandForm::Increment);
}

fn reads(rt: &impl Abort, alloc: Global, code: &[u8], want: RawInsn)
    requires { 0 < length code.now }
{
    let found = decode_insn(alloc, code, 0);
    assert_eq!(rt; found, Ok((want, code.len())));
}

#[test]
fn short_instructions(rt: HostRuntime) {
    let alloc = rt.alloc();
    // iload_0, bipush -1, sipush -32768, iload 255, wide iload 256, iinc 1 -1, wide iinc 256 -129.
    reads(&rt, alloc, &[0x1a], RawInsn::Plain(26));
    reads(&rt, alloc, &[0x10, 0xff], RawInsn::Byte(16, -1));
    reads(&rt, alloc, &[0x11, 0x80, 0x00], RawInsn::Short(17, -32768));
    reads(&rt, alloc, &[0x15, 0xff], RawInsn::Local(21, 255));
    reads(
        &rt,
        alloc,
        &[0xc4, 0x15, 0x01, 0x00],
        RawInsn::Local(21, 256),
    );
    reads(&rt, alloc, &[0x84, 0x01, 0xff], RawInsn::Inc(1, -1));
    reads(
        &rt,
        alloc,
        &[0xc4, 0x84, 0x01, 0x00, 0xff, 0x7f],
        RawInsn::Inc(256, -129),
    );
}

#[test]
fn other_instructions(rt: HostRuntime) {
    let alloc = rt.alloc();
    // ldc, ldc_w, goto, goto_w, invokeinterface, newarray, multianewarray.
    reads(&rt, alloc, &[0x12, 0xff], RawInsn::Pool(18, 255));
    reads(&rt, alloc, &[0x13, 0x01, 0x02], RawInsn::Pool(19, 258));
    reads(&rt, alloc, &[0xa7, 0xff, 0xfb], RawInsn::Jump(167, -5));
    reads(
        &rt,
        alloc,
        &[0xc8, 0xff, 0xff, 0xff, 0xfb],
        RawInsn::Jump(200, -5),
    );
    reads(
        &rt,
        alloc,
        &[0xb9, 0x00, 0x07, 0x02, 0x00],
        RawInsn::Interface(7, 2),
    );
    reads(&rt, alloc, &[0xbc, 0x0b], RawInsn::NewArray(11));
    reads(&rt, alloc, &[0xc5, 0x00, 0x09, 0x02], RawInsn::Multi(9, 2));
}

// The numbers of a switch stand at 8; its opcode comes to stand at 4 to 7, before padding that is not 0.
const TABLE: [u8; 28] = [
    9, 9, 9, 9, 9, 9, 9, 9, 0, 0, 0, 20, 0xff, 0xff, 0xff, 0xff, 0, 0, 0, 0, 0xff, 0xff, 0xff,
    0xfc, 0, 1, 0, 0,
];

#[test]
fn tables(rt: HostRuntime) -> Result<(), Fail> {
    let alloc = rt.alloc();
    for pc in 4..8 {
        let mut code = TABLE;
        code[pc] = 170;
        let want = RawInsn::Table {
            low: -1,
            default: 20,
            offsets: Seq::from_vec(vec![in alloc; -4, 65536]?),
        };
        assert_eq!(rt;
            decode_insn(alloc, &code, pc),
            Ok((want, 28 - pc)),
            "at {pc}"
        );
    }
    Ok(())
}

const ROWS: [u8; 32] = [
    9, 9, 9, 9, 9, 9, 9, 9, 0, 0, 0, 20, 0, 0, 0, 2, 0xff, 0xff, 0xff, 0xff, 0, 0, 0, 5, 0, 0, 0,
    3, 0xff, 0xff, 0xff, 0xfc,
];

#[test]
fn lookups(rt: HostRuntime) -> Result<(), Fail> {
    let alloc = rt.alloc();
    for pc in 4..8 {
        let mut code = ROWS;
        code[pc] = 171;
        let want = RawInsn::Lookup {
            default: 20,
            rows: Seq::from_vec(vec![in alloc; (-1, 5), (3, -4)]?),
        };
        assert_eq!(rt;
            decode_insn(alloc, &code, pc),
            Ok((want, 32 - pc)),
            "at {pc}"
        );
    }
    Ok(())
}

fn stops(rt: &impl Abort, alloc: Global, code: &[u8], why: CodeStop)
    requires { 0 < length code.now }
{
    assert_eq!(rt; decode_insn(alloc, code, 0), Err(why));
}

#[test]
fn refused_by_opcode(rt: HostRuntime) {
    let alloc = rt.alloc();
    stops(&rt, alloc, &[0xca], CodeStop::Unknown(202));
    stops(&rt, alloc, &[0xff], CodeStop::Unknown(255));
    stops(&rt, alloc, &[0x66], CodeStop::OutOfScope(102));
    stops(&rt, alloc, &[0xba], CodeStop::OutOfScope(186));
    stops(&rt, alloc, &[0xc9], CodeStop::OutOfScope(201));
}

#[test]
fn refused_by_operand(rt: HostRuntime) {
    let alloc = rt.alloc();
    // wide iadd, newarray of no type, no dimension, no argument words, a fourth byte, a negative count.
    stops(&rt, alloc, &[0xc4, 0x60], CodeStop::Operand);
    stops(&rt, alloc, &[0xbc, 0x03], CodeStop::Operand);
    stops(&rt, alloc, &[0xbc, 0x0c], CodeStop::Operand);
    stops(&rt, alloc, &[0xc5, 0, 9, 0], CodeStop::Operand);
    stops(&rt, alloc, &[0xb9, 0, 7, 0, 0], CodeStop::Operand);
    stops(&rt, alloc, &[0xb9, 0, 7, 2, 1], CodeStop::Operand);
    stops(
        &rt,
        alloc,
        &[0xab, 0, 0, 0, 0, 0, 0, 20, 0xff, 0xff, 0xff, 0xff],
        CodeStop::Operand,
    );
}

#[test]
fn refused_as_short(rt: HostRuntime) {
    let alloc = rt.alloc();
    // The last two declare 2 ^ 32 offsets and 2 ^ 31 - 1 rows.
    stops(&rt, alloc, &[0xb9, 0, 7, 0], CodeStop::Short);
    stops(&rt, alloc, &[0xc4], CodeStop::Short);
    stops(&rt, alloc, &[0xc4, 0x15, 0], CodeStop::Short);
    stops(&rt, alloc, &[0xc4, 0x84, 0, 0, 0], CodeStop::Short);
    stops(
        &rt,
        alloc,
        &[
            0xaa, 0, 0, 0, 0, 0, 0, 20, 0x80, 0, 0, 0, 0x7f, 0xff, 0xff, 0xff,
        ],
        CodeStop::Short,
    );
    stops(
        &rt,
        alloc,
        &[0xab, 0, 0, 0, 0, 0, 0, 20, 0x7f, 0xff, 0xff, 0xff],
        CodeStop::Short,
    );
}

// Of three rows of a `lookupswitch` one and a half are there.
const HALF: [u8; 24] = [
    0xab, 0, 0, 0, 0, 0, 0, 20, 0, 0, 0, 3, 0, 0, 0, 5, 0, 0, 0, 9, 0, 0, 0, 5,
];

#[test]
fn refused_by_order(rt: HostRuntime) {
    let alloc = rt.alloc();
    stops(
        &rt,
        alloc,
        &[0xaa, 0, 0, 0, 0, 0, 0, 0x14, 0, 0, 0, 5, 0, 0, 0, 4],
        CodeStop::Order,
    );
    stops(&rt, alloc, &HALF, CodeStop::Order);
    stops(&rt, alloc, &HALF[..23], CodeStop::Short);
}

fn writes(rt: &impl Abort, alloc: Global, code: &[u8], pc: usize, want: &[u8]) -> Result<(), Fail>
    requires { pc < length code.now }
{
    let mut out = Vec::new(alloc);
    match decode_insn(alloc, code, pc) {
        Ok((insn, _)) => encode_insn(&insn, pc, &mut out)?,
        Err(_) => return Err("an instruction".into()),
    }
    assert_eq!(rt; out.as_slice(), want);
    Ok(())
}

#[test]
fn shortest_spellings(rt: HostRuntime) -> Result<(), Fail> {
    let alloc = rt.alloc();
    // wide iload 255, wide iload 256, wide iinc within a byte, iinc by -129; goto_w, ldc_w and ldc stay.
    writes(&rt, alloc, &[0xc4, 0x15, 0, 0xff], 0, &[0x15, 0xff])?;
    writes(&rt, alloc, &[0xc4, 0x15, 1, 0], 0, &[0xc4, 0x15, 1, 0])?;
    writes(
        &rt,
        alloc,
        &[0xc4, 0x84, 0, 1, 0xff, 0x80],
        0,
        &[0x84, 1, 0x80],
    )?;
    writes(
        &rt,
        alloc,
        &[0xc4, 0x84, 0, 1, 0xff, 0x7f],
        0,
        &[0xc4, 0x84, 0, 1, 0xff, 0x7f],
    )?;
    writes(&rt, alloc, &[0xc8, 0, 0, 0, 5], 0, &[0xc8, 0, 0, 0, 5])?;
    writes(&rt, alloc, &[0x13, 0, 5], 0, &[0x13, 0, 5])?;
    writes(&rt, alloc, &[0x12, 5], 0, &[0x12, 5])?;
    Ok(())
}

#[test]
fn written_padding(rt: HostRuntime) -> Result<(), Fail> {
    let mut code = TABLE;
    code[5] = 170;
    let mut want = code;
    want[6] = 0;
    want[7] = 0;
    writes(&rt, rt.alloc(), &code, 5, &want[5..])?;
    Ok(())
}
