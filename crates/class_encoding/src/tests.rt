ghost use Rattle.std.specs.Prelude.{◌≡◌};
ghost use Rattle.class_input.specs.declared.bad_class.BadKind.TheVariants as kinds;
ghost use Rattle.class_input.specs.Reading.{◌>>=◌, here, refused};
ghost use Rattle.class_input.proofs.Laws.{here_exact, refused_exact};

use super::*;
use class_file::{CodeReader, MethodHead, read_class};
use class_input::{BadClass, BadKind, Input};
use class_model::{
    BaseType, ClassDef, CodeDef, Constant, FieldDef, InnerRow, JType, MethodDef, MethodDesc,
};
use class_names::NamedPool;
use class_shape::is_shaped;
use lists::{Name, Seq};
use std::alloc::{AllocError, Global};
use std::test::Fail;

/// Reads no code.
struct NoCode;

impl CodeReader for NoCode {
    ghost is_code = { λ p class head text code. ⊥ };

    ghost code = { λ p class head. here >>= λ at. refused at (kinds.Code 0) };

    ghost exact = { λ p class head. here_exact (λ text x. ⊥) (λ at. refused at (kinds.Code 0)) (λ at. refused_exact (λ text x. ⊥) at (kinds.Code 0) (λ text x h. h)) };

    fn read_code(
        &self,
        _alloc: Global,
        _pool: &NamedPool,
        _class: &Name,
        _head: &MethodHead,
        input: &mut Input,
    ) -> Result<CodeDef, BadClass> {
        Err(BadClass::Bad {
            place: input.at,
            kind: BadKind::Code(0),
        })
    }
}

fn names(alloc: Global, text: &str) -> Result<Seq<Name>, AllocError> {
    let mut names = Seq::new(alloc);
    names.push(Name::from_str(alloc, text)?)?;
    Ok(names)
}

/// A field that is an array of a class, with a constant, though it is not static.
fn fields(alloc: Global) -> Result<Seq<FieldDef>, AllocError> {
    let mut fields = Seq::new(alloc);
    fields.push(FieldDef {
        flags: 0,
        name: Name::from_str(alloc, "f")?,
        ty: JType {
            depth: 2,
            base: BaseType::Class(Name::from_str(alloc, "A")?),
        },
        constant: Some(Constant::Long(-7)),
    })?;
    Ok(fields)
}

/// A method without code.
fn methods(alloc: Global) -> Result<Seq<MethodDef>, AllocError> {
    let mut methods = Seq::new(alloc);
    methods.push(MethodDef {
        flags: 0x401,
        name: Name::from_str(alloc, "m")?,
        desc: MethodDesc {
            params: Seq::new(alloc),
            result: None,
        },
        throws: names(alloc, "E")?,
        code: None,
    })?;
    Ok(methods)
}

fn inner(alloc: Global) -> Result<Seq<InnerRow>, AllocError> {
    let mut rows = Seq::new(alloc);
    rows.push(InnerRow {
        inner: Name::from_str(alloc, "A$B")?,
        outer: Some(Name::from_str(alloc, "A")?),
        name: None,
        flags: 8,
    })?;
    Ok(rows)
}

/// A class with everything but code.
fn class(alloc: Global, text: &str) -> Result<ClassDef, AllocError> {
    let source = Vec::from_slice(alloc, b"A.java")?;
    Ok(ClassDef {
        minor: 3,
        major: 52,
        flags: 0x421,
        name: Name::from_str(alloc, text)?,
        super_name: Some(Name::from_str(alloc, "java/lang/Object")?),
        interfaces: names(alloc, "I")?,
        fields: fields(alloc)?,
        methods: methods(alloc)?,
        source: Some(Seq::from_vec(source)),
        inner: inner(alloc)?,
    })
}

/// What is written reads back.
#[test]
fn a_class(rt: HostRuntime) -> Result<(), Fail> {
    let alloc = rt.alloc();
    let class = class(alloc, "A")?;
    assert!(rt; is_shaped(&class));
    let bytes = encode_class(alloc, &class)?;
    let again = read_class(alloc, &NoCode, bytes.as_slice())?;
    assert!(rt; again == class);
    Ok(())
}

/// A text of a byte more than a class file has room for.
#[test]
fn a_long_text(rt: HostRuntime) -> Result<(), Fail> {
    let alloc = rt.alloc();
    let mut class = class(alloc, "A")?;
    let mut units = Vec::new(alloc);
    for _ in 0..65_536 {
        units.push(97)?;
    }
    class.name = Name::from_vec(alloc, units)?;
    assert!(rt; is_shaped(&class));
    let answer = encode_class(alloc, &class);
    assert!(rt; matches!(&answer, Err(EncodeStop::Limit(EncodeKind::Text, 65_536))));
    Ok(())
}
