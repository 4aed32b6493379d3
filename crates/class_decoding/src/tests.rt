use crate::{decode_class, one_class};
use class_input::{BadClass, BadKind};
use class_model::{ClassDef, Frame, Insn, InvokeKind, VType};
use std::alloc::{AllocError, Global};
use std::test::Fail;

/// What stands before the class: the 17 entries of the constant pool that each class here has, behind a count.
fn put_pool(out: &mut Vec<u8>, count: u8) -> Result<(), AllocError> {
    out.extend_from_slice(&[0xca, 0xfe, 0xba, 0xbe, 0, 0, 0, 52, 0, count])?;
    out.extend_from_slice(b"\x01\x00\x01A\x07\x00\x01\x01\x00\x10java/lang/Object\x07\x00\x03")?;
    out.extend_from_slice(b"\x01\x00\x04main\x01\x00\x16([Ljava/lang/String;)V")?;
    out.extend_from_slice(b"\x01\x00\x04Code\x01\x00\x0asys/Native\x07\x00\x08")?;
    out.extend_from_slice(b"\x01\x00\x04read\x01\x00\x03()I\x0c\x00\x0a\x00\x0b")?;
    out.extend_from_slice(b"\x0a\x00\x09\x00\x0c\x01\x00\x05write\x01\x00\x04(I)V")?;
    out.extend_from_slice(b"\x0c\x00\x0e\x00\x0f\x0a\x00\x09\x00\x10")?;
    Ok(())
}

/// The class of the demo, which reads two bytes and writes their sum.
fn example(alloc: Global) -> Result<Vec<u8>, AllocError> {
    let mut out = Vec::new(alloc);
    put_pool(&mut out, 18)?;
    out.extend_from_slice(&[0, 0x21, 0, 2, 0, 4, 0, 0, 0, 0, 0, 1])?;
    out.extend_from_slice(&[0, 9, 0, 5, 0, 6, 0, 1, 0, 7, 0, 0, 0, 23])?;
    out.extend_from_slice(&[0, 2, 0, 1, 0, 0, 0, 11, 0xb8, 0, 13, 0xb8, 0, 13])?;
    out.extend_from_slice(&[0x60, 0xb8, 0, 17, 0xb1, 0, 0, 0, 0, 0, 0])?;
    Ok(out)
}

fn calls(insn: &Insn, name: &str) -> bool {
    match insn {
        Insn::Invoke(InvokeKind::Static, method) => method.name.is(name),
        _ => false,
    }
}

fn is_example(class: &ClassDef) -> bool {
    let [method] = class.methods.as_slice() else {
        return false;
    };
    let Some(code) = &method.code else {
        return false;
    };
    let [first, second, add, write, end] = code.insns.as_slice() else {
        return false;
    };
    class.name.is("A")
        && method.name.is("main")
        && code.max_stack == 2
        && calls(first, "read")
        && calls(second, "read")
        && matches!(add, Insn::Bin(_, _))
        && calls(write, "write")
        && matches!(end, Insn::Return(None))
}

fn refuses(alloc: Global, bytes: &[u8], place: usize, kind: BadKind) -> bool {
    let bad = BadClass::Bad { place, kind };
    matches!(decode_class(alloc, bytes), Err(stop) if stop == bad)
}

/// Where the example is cut, and the first field that is short then.
const CUTS: [(usize, usize); 12] = [
    (0, 0),
    (3, 0),
    (9, 8),
    (12, 11),
    (13, 13),
    (30, 20),
    (41, 40),
    (143, 142),
    (178, 177),
    (183, 183),
    (190, 189),
    (192, 191),
];

#[test]
fn sum_of_two_bytes(rt: HostRuntime) -> Result<(), Fail> {
    let mut bytes = example(rt.alloc())?;
    let class = decode_class(rt.alloc(), &bytes)?;
    assert!(rt; is_example(&class));
    one_class();
    for (len, place) in CUTS {
        let cut = bytes.get(..len).unwrap_or(&[]);
        assert!(rt;
            refuses(rt.alloc(), cut, place, BadKind::Short),
            "cut at {len}"
        );
    }
    let len = bytes.len();
    bytes.push(0)?;
    assert!(rt; refuses(rt.alloc(), &bytes, len, BadKind::Trailing));
    Ok(())
}

/// A byte of the example, what stands there instead, and what is refused.
const EDITS: [(usize, u8, usize, BadKind); 16] = [
    (0, 0xcb, 0, BadKind::Magic),
    (9, 0, 8, BadKind::PoolCount),
    (13, 0xff, 13, BadKind::Text),
    (14, 2, 14, BadKind::PoolTag(2)),
    (16, 4, 15, BadKind::PoolKind(4)),
    (16, 18, 15, BadKind::PoolIndex(18)),
    (145, 1, 144, BadKind::PoolKind(1)),
    (159, 1, 158, BadKind::Descriptor),
    (164, 1, 191, BadKind::AttrLength),
    (167, 22, 189, BadKind::Short),
    (167, 24, 191, BadKind::AttrLength),
    (173, 1, 172, BadKind::CodeLength),
    (175, 0, 172, BadKind::CodeLength),
    (178, 1, 177, BadKind::PoolKind(1)),
    (182, 203, 182, BadKind::Code(203)),
    (192, 1, 193, BadKind::Short),
];

#[test]
fn one_byte_wrong(rt: HostRuntime) -> Result<(), Fail> {
    for (at, byte, place, kind) in EDITS {
        let mut bytes = example(rt.alloc())?;
        if let Some(slot) = bytes.get_mut(at) {
            *slot = byte;
        }
        assert!(rt; refuses(rt.alloc(), &bytes, place, kind), "byte {at}");
    }
    Ok(())
}

/// A class whose pool has three names more, with a static method that has these attributes. Their table stands at 198.
fn file(alloc: Global, attributes: &[u8]) -> Result<Vec<u8>, AllocError> {
    let mut out = Vec::new(alloc);
    put_pool(&mut out, 21)?;
    out.extend_from_slice(b"\x01\x00\x0dStackMapTable\x01\x00\x0fLineNumberTable\x01\x00\x01x")?;
    out.extend_from_slice(&[0, 0x21, 0, 2, 0, 4, 0, 0, 0, 0, 0, 1])?;
    out.extend_from_slice(&[0, 9, 0, 5, 0, 6])?;
    out.extend_from_slice(attributes)?;
    out.extend_from_slice(&[0, 0])?;
    Ok(out)
}

/// Such a class with the code `nop`, `return` at 214. The tables behind it stand at 216.
fn coded(alloc: Global, tables: &[u8]) -> Result<Vec<u8>, AllocError> {
    let mut out = Vec::new(alloc);
    let len = tables.len().min(200) as u8 + 10;
    out.extend_from_slice(&[0, 1, 0, 7, 0, 0, 0, len, 0, 0, 0, 1, 0, 0, 0, 2, 0, 0xb1])?;
    out.extend_from_slice(tables)?;
    file(alloc, &out)
}

/// Tables behind the code, and what is refused.
const REFUSED: [(&[u8], usize, BadKind); 16] = [
    // A handler that ends where it starts, one behind the code, and one that goes nowhere.
    (&[0, 1, 0, 0, 0, 0, 0, 0, 0, 0, 0, 0], 220, BadKind::Target),
    (&[0, 1, 0, 0, 0, 3, 0, 0, 0, 0, 0, 0], 220, BadKind::Target),
    (&[0, 1, 0, 0, 0, 2, 0, 2, 0, 0, 0, 0], 222, BadKind::Target),
    // A frame at no instruction; and the same where a later one is reserved, or cut by the attribute's length.
    (
        &[0, 0, 0, 1, 0, 18, 0, 0, 0, 3, 0, 1, 5],
        228,
        BadKind::Target,
    ),
    (
        &[0, 0, 0, 1, 0, 18, 0, 0, 0, 4, 0, 2, 5, 128],
        229,
        BadKind::Frame(128),
    ),
    (
        &[0, 0, 0, 1, 0, 18, 0, 0, 0, 3, 0, 2, 5],
        229,
        BadKind::Short,
    ),
    // A float, an object that no `new` makes, a local that is not there, an offset past 65,535.
    (
        &[0, 0, 0, 1, 0, 18, 0, 0, 0, 4, 0, 1, 65, 2],
        229,
        BadKind::Frame(2),
    ),
    (
        &[0, 0, 0, 1, 0, 18, 0, 0, 0, 6, 0, 1, 65, 8, 0, 0],
        230,
        BadKind::Target,
    ),
    (
        &[0, 0, 0, 1, 0, 18, 0, 0, 0, 5, 0, 1, 249, 0, 1],
        228,
        BadKind::Frame(0),
    ),
    (
        &[0, 0, 0, 1, 0, 18, 0, 0, 0, 6, 0, 2, 1, 251, 255, 255],
        230,
        BadKind::Frame(0),
    ),
    // A class that is none, and one whose name is no descriptor.
    (
        &[0, 0, 0, 1, 0, 18, 0, 0, 0, 6, 0, 1, 65, 7, 0, 1],
        230,
        BadKind::PoolKind(1),
    ),
    // A frame that ends before its attribute does, and one whose attribute passes the end of the code's.
    (
        &[0, 0, 0, 1, 0, 18, 0, 0, 0, 4, 0, 1, 1, 0],
        229,
        BadKind::AttrLength,
    ),
    (
        &[0, 0, 0, 1, 0, 18, 0, 0, 0, 4, 0, 1, 1],
        229,
        BadKind::AttrLength,
    ),
    // Two tables of frames, and a line at no instruction.
    (
        &[0, 0, 0, 2, 0, 18, 0, 0, 0, 2, 0, 0, 0, 18, 0, 0, 0, 2, 0, 0],
        228,
        BadKind::Twice,
    ),
    (
        &[0, 0, 0, 1, 0, 19, 0, 0, 0, 6, 0, 1, 0, 2, 0, 7],
        228,
        BadKind::Target,
    ),
    // A dropped attribute that is not all there.
    (&[0, 0, 0, 1, 0, 20, 0, 0, 0, 2, 0], 226, BadKind::Short),
];

#[test]
fn tables_of_code(rt: HostRuntime) -> Result<(), Fail> {
    for (tables, place, kind) in REFUSED {
        let bytes = coded(rt.alloc(), tables)?;
        assert!(rt; refuses(rt.alloc(), &bytes, place, kind), "at {place}");
    }
    // A second Code attribute.
    let code = [0, 7, 0, 0, 0, 13, 0, 0, 0, 1, 0, 0, 0, 1, 0xb1, 0, 0, 0, 0];
    let mut twice = Vec::new(rt.alloc());
    twice.extend_from_slice(&[0, 2])?;
    twice.extend_from_slice(&code)?;
    twice.extend_from_slice(&code)?;
    let bytes = file(rt.alloc(), &twice)?;
    assert!(rt; refuses(rt.alloc(), &bytes, 219, BadKind::Twice));
    Ok(())
}

/// A handler over all code; an attribute that is dropped, twice; a frame in which a String was chopped and one in which it
/// stands; and two LineNumberTables with a row each.
fn put_tables(out: &mut Vec<u8>) -> Result<(), AllocError> {
    out.extend_from_slice(&[0, 1, 0, 0, 0, 2, 0, 1, 0, 4, 0, 5])?;
    out.extend_from_slice(&[0, 20, 0, 0, 0, 1, 9, 0, 20, 0, 0, 0, 0])?;
    out.extend_from_slice(&[0, 19, 0, 0, 0, 6, 0, 1, 0, 0, 0, 7])?;
    out.extend_from_slice(&[0, 18, 0, 0, 0, 9, 0, 2, 64, 7, 0, 4, 250, 0, 0])?;
    out.extend_from_slice(&[0, 19, 0, 0, 0, 6, 0, 1, 0, 1, 0, 8])?;
    Ok(())
}

fn is_string_array(ty: &VType) -> bool {
    matches!(ty, VType::Ref(ty) if ty.depth == 1)
}

fn are_frames(frames: &[(u32, Frame)]) -> bool {
    let [first, second] = frames else {
        return false;
    };
    let ([local], [item]) = (first.1.locals.as_slice(), first.1.stack.as_slice()) else {
        return false;
    };
    first.0 == 0
        && is_string_array(local)
        && matches!(item, VType::Ref(ty) if ty.depth == 0)
        && second.0 == 1
        && second.1.locals.is_empty()
        && second.1.stack.is_empty()
}

#[test]
fn frames_and_lines(rt: HostRuntime) -> Result<(), Fail> {
    let mut tables = Vec::new(rt.alloc());
    put_tables(&mut tables)?;
    let bytes = coded(rt.alloc(), &tables)?;
    let class = decode_class(rt.alloc(), &bytes)?;
    let [method] = class.methods.as_slice() else {
        return Err(BadClass::Memory.into());
    };
    let Some(code) = &method.code else {
        return Err(BadClass::Memory.into());
    };
    assert!(rt; are_frames(code.frames.as_slice()));
    assert!(rt; code.lines.as_slice() == [(0, 7), (1, 8)].as_slice());
    assert!(rt; code.handlers.len() == 1);
    Ok(())
}
