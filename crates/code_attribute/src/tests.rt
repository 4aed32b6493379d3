use crate::read_code;
use class_file::MethodHead;
use class_input::{BadClass, BadKind, Input};
use class_model::{CodeDef, DescStop, parse_desc};
use class_names::NamedPool;
use lists::Name;
use std::alloc::{AllocError, Global};
use std::test::Fail;

/// The head of a static method without parameters.
fn head(alloc: Global) -> Result<MethodHead, DescStop> {
    let text = Name::from_str(alloc, "()V")?;
    Ok(MethodHead {
        flags: 9,
        name: Name::from_str(alloc, "m")?,
        desc: parse_desc(alloc, text.as_units())?,
    })
}

fn put_pool(out: &mut Vec<u8>) -> Result<(), AllocError> {
    out.extend_from_slice(b"\x00\x03\x01\x00\x0fLineNumberTable")?;
    out.extend_from_slice(b"\x01\x00\x0dStackMapTable")?;
    Ok(())
}

/// What is read of a content, of a method of A.
fn read(alloc: Global, content: &[u8]) -> Result<CodeDef, BadClass> {
    let mut entries = Vec::new(alloc);
    put_pool(&mut entries)?;
    let pool = NamedPool::read(alloc, &mut Input::new(&entries))?;
    let head = head(alloc).map_err(|_| BadClass::Memory)?;
    let class = Name::from_str(alloc, "A")?;
    read_code(alloc, &pool, &class, &head, &mut Input::new(content))
}

/// The code `nop`, `return`, up to its attributes, which stand at 14.
fn content(alloc: Global, attributes: &[u8]) -> Result<Vec<u8>, AllocError> {
    let mut out = Vec::new(alloc);
    out.extend_from_slice(&[0, 3, 0, 4, 0, 0, 0, 2, 0, 0xb1, 0, 0])?;
    out.extend_from_slice(attributes)?;
    Ok(out)
}

#[test]
fn lines_joined(rt: HostRuntime) -> Result<(), Fail> {
    let tables = [
        0, 3, 0, 1, 0, 0, 0, 6, 0, 1, 0, 1, 0, 5, 0, 2, 0, 0, 0, 2, 0, 0, 0, 1, 0, 0, 0, 6, 0, 1,
        0, 0, 0, 6,
    ];
    let bytes = content(rt.alloc(), &tables)?;
    let code = read(rt.alloc(), &bytes)?;
    assert!(rt; code.max_stack == 3 && code.max_locals == 4 && code.insns.len() == 2);
    assert!(rt; code.lines.as_slice() == [(1, 5), (0, 6)].as_slice());
    // A second table of frames, at the index of its name.
    let twice = content(rt.alloc(), &[0, 2, 0, 2, 0, 0, 0, 2, 0, 0, 0, 2])?;
    let bad = BadClass::Bad {
        place: 22,
        kind: BadKind::Twice,
    };
    assert!(rt; matches!(read(rt.alloc(), &twice), Err(stop) if stop == bad));
    Ok(())
}
