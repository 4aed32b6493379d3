ghost use Rattle.std.specs.Prelude.{◌≡◌};
ghost use Rattle.class_input.specs.declared.bad_class.BadKind.TheVariants as kinds;
ghost use Rattle.class_input.specs.Reading.{◌>>=◌, here, refused, Gives, seen};
ghost use Rattle.class_input.proofs.Laws.{here_exact, refused_exact};

use super::*;
use class_input::{BadClass, BadKind, Input};
use class_model::{ClassDef, CodeDef, Constant};
use class_names::NamedPool;
use lists::Name;
use std::alloc::{AllocError, Global};
use std::test::Fail;

/// Refuses every content.
struct NoCode;

impl CodeReader for NoCode {
    ghost is_code = { λ p class head text code. ⊥ };

    ghost code = { λ p class head. here >>= λ at. refused at (kinds.Code 0) };

    ghost exact = { λ p class head. here_exact (λ text x. ⊥) (λ at. refused at (kinds.Code 0)) (λ at. refused_exact (λ text x. ⊥) at (kinds.Code 0) (λ text x h. h)) };

    fn read_code(
        &self,
        _alloc: Global,
        _pool: &NamedPool,
        _class: &Name,
        _head: &MethodHead,
        input: &mut Input,
    ) -> Result<CodeDef, BadClass> {
        Err(BadClass::Bad {
            place: input.at,
            kind: BadKind::Code(0),
        })
    }
}

fn put_text(out: &mut Vec<u8>, text: &str) -> Result<(), AllocError> {
    let bytes = text.as_bytes();
    out.extend_from_slice(&[1])?;
    out.extend_from_slice(&(bytes.len().min(65_535) as u16).to_be_bytes())?;
    out.extend_from_slice(bytes)?;
    Ok(())
}

/// Entries 1 to 16 in 133 bytes, behind a head of 10.
fn put_pool(out: &mut Vec<u8>) -> Result<(), AllocError> {
    put_text(out, "A")?;
    out.extend_from_slice(&[7, 0, 1])?;
    put_text(out, "java/lang/Object")?;
    out.extend_from_slice(&[7, 0, 3])?;
    put_text(out, "x")?;
    put_text(out, "J")?;
    put_text(out, "ConstantValue")?;
    out.extend_from_slice(&[5, 0, 0, 0, 0, 0, 0, 0, 7])?;
    put_text(out, "m")?;
    put_text(out, "()V")?;
    put_text(out, "Exceptions")?;
    put_text(out, "SourceFile")?;
    put_text(out, "InnerClasses")?;
    put_text(out, "Deprecated")?;
    put_text(out, "Code")?;
    Ok(())
}

/// A class with one field and one method, by its tables of attributes. That of the field stands at 161.
fn file(alloc: Global, field: &[u8], method: &[u8], class: &[u8]) -> Result<Vec<u8>, AllocError> {
    let mut out = Vec::new(alloc);
    out.extend_from_slice(&[0xCA, 0xFE, 0xBA, 0xBE, 0, 0, 0, 52, 0, 17])?;
    put_pool(&mut out)?;
    out.extend_from_slice(&[0, 0x21, 0, 2, 0, 4, 0, 1, 0, 2])?;
    out.extend_from_slice(&[0, 1, 0, 0, 0, 5, 0, 6])?;
    out.extend_from_slice(field)?;
    out.extend_from_slice(&[0, 1, 4, 1, 0, 10, 0, 11])?;
    out.extend_from_slice(method)?;
    out.extend_from_slice(class)?;
    Ok(out)
}

/// A ConstantValue between two attributes that are dropped.
const FIELD: [u8; 22] = [
    0, 3, 0, 15, 0, 0, 0, 0, 0, 7, 0, 0, 0, 2, 0, 8, 0, 15, 0, 0, 0, 0,
];

const METHOD: [u8; 12] = [0, 1, 0, 12, 0, 0, 0, 4, 0, 1, 0, 4];

const CLASS: [u8; 26] = [
    0, 2, 0, 13, 0, 0, 0, 2, 0, 5, 0, 14, 0, 0, 0, 10, 0, 1, 0, 2, 0, 0, 0, 5, 0, 8,
];

fn is_example(class: &ClassDef) -> bool {
    let ([field], [method], [row], [interface]) = (
        class.fields.as_slice(),
        class.methods.as_slice(),
        class.inner.as_slice(),
        class.interfaces.as_slice(),
    ) else {
        return false;
    };
    let ([thrown], Some(source)) = (method.throws.as_slice(), &class.source) else {
        return false;
    };
    interface.is("A")
        && matches!(&field.constant, Some(Constant::Long(7)))
        && thrown.is("java/lang/Object")
        && method.code.is_none()
        && source.as_slice() == b"x".as_slice()
        && row.inner.is("A")
        && row.outer.is_none()
        && matches!(&row.name, Some(name) if name.is("x"))
        && row.flags == 8
}

#[test]
fn a_class(rt: HostRuntime) -> Result<(), Fail> {
    let mut bytes = file(rt.alloc(), &FIELD, &METHOD, &CLASS)?;
    let class = read_class(rt.alloc(), &NoCode, &bytes)?;
    assert!(rt; is_example(&class));
    one_class(&NoCode);
    for len in 0..bytes.len() {
        assert!(rt;
            read_class(rt.alloc(), &NoCode, &bytes[..len]).is_err(),
            "cut at {len}"
        );
    }
    bytes.push(0)?;
    let trailing = BadClass::Bad {
        place: bytes.len() - 1,
        kind: BadKind::Trailing,
    };
    assert!(rt; matches!(read_class(rt.alloc(), &NoCode, &bytes), Err(bad) if bad == trailing));
    Ok(())
}

const NONE: [u8; 2] = [0, 0];

/// Tables of attributes of the field, the method and the class, and what is refused.
const REFUSED: [(&[u8], &[u8], &[u8], usize, BadKind); 11] = [
    (
        &[0, 2, 0, 7, 0, 0, 0, 2, 0, 8, 0, 7, 0, 0, 0, 2, 0, 8],
        &NONE,
        &NONE,
        171,
        BadKind::Twice,
    ),
    (
        &[0, 1, 0, 7, 0, 0, 0, 3, 0, 8, 0],
        &NONE,
        &NONE,
        171,
        BadKind::AttrLength,
    ),
    (
        &[0, 1, 0, 7, 0, 1, 0, 0, 0, 8],
        &NONE,
        &NONE,
        171,
        BadKind::AttrLength,
    ),
    (
        &[0, 1, 0, 7, 0, 0, 0, 1, 0, 8],
        &NONE,
        &NONE,
        169,
        BadKind::Short,
    ),
    (
        &[0, 1, 0, 7, 0, 0, 0, 2, 0, 5],
        &NONE,
        &NONE,
        169,
        BadKind::PoolKind(5),
    ),
    (
        &[0, 1, 0, 15, 0, 1, 0, 0],
        &NONE,
        &NONE,
        169,
        BadKind::Short,
    ),
    (
        &[0, 1, 0, 2, 0, 0, 0, 0],
        &NONE,
        &NONE,
        163,
        BadKind::PoolKind(2),
    ),
    (
        &NONE,
        &[0, 2, 0, 12, 0, 0, 0, 2, 0, 0, 0, 12, 0, 0, 0, 2, 0, 0],
        &NONE,
        181,
        BadKind::Twice,
    ),
    (
        &NONE,
        &[0, 1, 0, 16, 0, 0, 0, 0],
        &NONE,
        179,
        BadKind::Code(0),
    ),
    (
        &NONE,
        &NONE,
        &[0, 2, 0, 13, 0, 0, 0, 2, 0, 5, 0, 13, 0, 0, 0, 2, 0, 5],
        183,
        BadKind::Twice,
    ),
    (
        &NONE,
        &NONE,
        &[0, 1, 0, 14, 0, 0, 0, 2, 0, 1],
        183,
        BadKind::Short,
    ),
];

#[test]
fn refusals(rt: HostRuntime) -> Result<(), Fail> {
    for (field, method, class, place, kind) in REFUSED {
        let bytes = file(rt.alloc(), field, method, class)?;
        let bad = BadClass::Bad { place, kind };
        let read = read_class(rt.alloc(), &NoCode, &bytes);
        assert!(rt; matches!(read, Err(stop) if stop == bad), "at {place}");
    }
    Ok(())
}
