use crate::{first_types, read_frames};
use class_file::MethodHead;
use class_input::{BadClass, BadKind, Input};
use class_model::{DescStop, Frame, VType, parse_desc};
use class_names::NamedPool;
use insn_code::read_insns;
use lists::{Name, Seq};
use std::alloc::Global;
use std::test::Fail;

/// The first frame of a method of a class, of these flags, with a long, a double and an array.
fn first(alloc: Global, class: &str, flags: u16, name: &str) -> Result<Seq<VType>, DescStop> {
    let text = Name::from_str(alloc, "(JD[I)V")?;
    let head = MethodHead {
        flags,
        name: Name::from_str(alloc, name)?,
        desc: parse_desc(alloc, text.as_units())?,
    };
    let class = Name::from_str(alloc, class)?;
    Ok(first_types(alloc, &class, &head)?)
}

/// Whether a first frame has this many entries, of which the last are those of the parameters.
fn has_params(types: &[VType], count: usize) -> bool {
    types.len() == count
        && matches!(types, [.., VType::Long, VType::Top, VType::Ref(array)] if array.depth == 1)
}

#[test]
fn first_frames(rt: HostRuntime) -> Result<(), DescStop> {
    let alloc = rt.alloc();
    let made = first(alloc, "A", 1, "<init>")?;
    assert!(rt; has_params(made.as_slice(), 4) && matches!(made.get(0), Some(VType::UninitThis)));
    // Object's own, and a static method, whatever its name is.
    let object = first(alloc, "java/lang/Object", 1, "<init>")?;
    assert!(rt; has_params(object.as_slice(), 4) && matches!(object.get(0), Some(VType::Ref(_))));
    let fixed = first(alloc, "A", 9, "<init>")?;
    assert!(rt; has_params(fixed.as_slice(), 3));
    // A class whose name no type can have is its receiver's nonetheless.
    let odd = first(alloc, "[I", 1, "m")?;
    assert!(rt; matches!(odd.get(0), Some(VType::Ref(ty)) if ty.depth == 0));
    Ok(())
}

/// The frames of a table of the code `new A`, `return`.
fn frames(alloc: Global, table: &[u8]) -> Result<Seq<(u32, Frame)>, BadClass> {
    let pool = NamedPool::read(alloc, &mut Input::new(b"\x00\x03\x01\x00\x01A\x07\x00\x01"))?;
    let code = read_insns(alloc, &pool, 4, &mut Input::new(&[0xbb, 0, 2, 0xb1]))?;
    read_frames(
        alloc,
        &pool,
        &code,
        &Seq::new(alloc),
        &mut Input::new(table),
    )
}

fn is_one_uninit(frames: &[(u32, Frame)]) -> bool {
    let [one] = frames else {
        return false;
    };
    one.0 == 1 && matches!(one.1.stack.as_slice(), [VType::Uninit(made)] if *made == 0)
}

#[test]
fn object_of_a_new(rt: HostRuntime) -> Result<(), Fail> {
    let read = frames(rt.alloc(), &[0, 1, 67, 8, 0, 0])?;
    assert!(rt; is_one_uninit(read.as_slice()));
    let bad = BadClass::Bad {
        place: 4,
        kind: BadKind::Target,
    };
    // The other instruction is no `new`.
    let other = frames(rt.alloc(), &[0, 1, 67, 8, 0, 3]);
    assert!(rt; matches!(other, Err(stop) if stop == bad));
    Ok(())
}
