ghost use Rattle.std.specs.Prelude.{◌≡◌, [], IfOk, IfSome};
ghost use Rattle.pool_names.specs.Adding.{done};
ghost use Rattle.pool_names.proofs.Claiming.{done_claims};
ghost use Rattle.pool_names.specs.Fits.{FitsText};
ghost use Rattle.class_spelling.specs.Writable.{Writable, WritableField};

use super::*;
use class_model::{BaseType, ClassDef, CodeDef, Constant, FieldDef, JType, Primitive};
use const_pool::PoolStop;
use lists::{Name, Seq};
use pool_names::PoolWriter;
use std::alloc::{AllocError, Global};
use std::test::Fail;

/// Writes no byte of any code.
struct NoCode;

impl CodeWriter for NoCode {
    ghost is_code = { λ p class head text code. [] ≡ text };

    ghost spelled = { λ code. done [] };

    ghost writable = { λ code. Unit {0} };

    ghost claims = { λ class head code any. done_claims [] };

    fn write_code(
        &self,
        alloc: Global,
        _pool: &mut PoolWriter,
        _code: &CodeDef,
    ) -> Result<Vec<u8>, PoolStop> {
        Ok(Vec::new(alloc))
    }
}

/// The name of these units.
fn name(alloc: Global, units: &[u16]) -> Result<Name, AllocError>
    requires { FitsText units.now }
    ensures { IfOk result (λ name. FitsText name) }
{
    Name::from_units(alloc, units)
}

/// The field `f`, an int with the constant 7.
#[tactic(auto, unfolding(class_model::specs::Descriptor::field_descriptor))]
fn field(alloc: Global) -> Result<FieldDef, AllocError>
    ensures { IfOk result (λ field. WritableField field) }
{
    let name = name(alloc, &[102])?;
    Ok(FieldDef {
        flags: 0x18,
        name,
        ty: JType {
            depth: 0,
            base: BaseType::Primitive(Primitive::Int),
        },
        constant: Some(Constant::Int(7)),
    })
}

/// The class `A` with that field.
#[tactic(auto, unfolding(crate::specs::Writable::EachFits))]
fn class(alloc: Global) -> Result<ClassDef, AllocError>
    ensures { IfOk result (λ class. Writable (λ code. Unit {0}) class) }
{
    let name = name(alloc, &[65])?;
    let mut fields = Seq::new(alloc);
    fields.push(field(alloc)?)?;
    Ok(ClassDef {
        minor: 0,
        major: 52,
        flags: 0x21,
        name,
        super_name: None,
        interfaces: Seq::new(alloc),
        fields,
        methods: Seq::new(alloc),
        source: None,
        inner: Seq::new(alloc),
    })
}

/// The bytes of that class.
fn expected(alloc: Global) -> Result<Vec<u8>, AllocError> {
    let mut bytes = Vec::new(alloc);
    bytes.extend_from_slice(&[0xCA, 0xFE, 0xBA, 0xBE, 0, 0, 0, 52, 0, 7])?;
    bytes.extend_from_slice(b"\x01\x00\x01A\x07\x00\x01\x01\x00\x01f\x01\x00\x01I")?;
    bytes.extend_from_slice(b"\x01\x00\x0DConstantValue\x03\x00\x00\x00\x07")?;
    bytes.extend_from_slice(&[0, 0x21, 0, 2, 0, 0, 0, 0, 0, 1, 0, 0x18, 0, 3, 0, 4])?;
    bytes.extend_from_slice(&[0, 1, 0, 5, 0, 0, 0, 2, 0, 6, 0, 0, 0, 0])?;
    Ok(bytes)
}

#[test]
fn a_class(rt: HostRuntime) -> Result<(), Fail> {
    let alloc = rt.alloc();
    let class = class(alloc)?;
    let bytes = write_class(alloc, &NoCode, &class)?;
    assert!(rt; bytes.as_slice() == expected(alloc)?.as_slice());
    Ok(())
}
