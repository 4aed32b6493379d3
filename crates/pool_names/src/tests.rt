ghost use Rattle.std.specs.Prelude.{IfOk};
ghost use Rattle.pool_names.specs.Fits.{FitsText, FitsType, FitsFieldType, FitsDesc, FitsField, FitsMethod};

use super::*;
use class_model::{BaseType, Constant, FieldRef, JType, MethodDesc, MethodRef, Primitive};
use lists::{Bytes, Name, Seq};
use std::alloc::{AllocError, Global};
use std::test::Fail;

/// The name of these units.
fn name(alloc: Global, units: &[u16]) -> Result<Name, AllocError>
    requires { FitsText units.now }
    ensures { IfOk result (λ name. FitsText name) }
{
    Name::from_units(alloc, units)
}

/// An array of ints.
#[tactic(auto, unfolding(class_model::specs::Descriptor::field_descriptor))]
fn ints() -> JType
    ensures class { FitsType result }
    ensures descriptor { FitsFieldType result }
{
    JType {
        depth: 1,
        base: BaseType::Primitive(Primitive::Int),
    }
}

/// No parameter and no result.
#[tactic(auto, unfolding(class_model::specs::Descriptor::method_descriptor))]
fn nothing(alloc: Global) -> MethodDesc
    ensures { FitsDesc result }
{
    MethodDesc {
        params: Seq::new(alloc),
        result: None,
    }
}

/// The method `m` of arrays of ints, with no parameter and no result.
fn method(alloc: Global) -> Result<MethodRef, AllocError>
    ensures { IfOk result (λ method. FitsMethod method) }
{
    let name = name(alloc, &[109])?;
    Ok(MethodRef {
        class: ints(),
        name,
        desc: nothing(alloc),
        in_interface: true,
    })
}

/// The field `f` of the class `A`, an array of ints.
fn field(alloc: Global) -> Result<FieldRef, AllocError>
    ensures { IfOk result (λ field. FitsField field) }
{
    let class = name(alloc, &[65])?;
    let name = name(alloc, &[102])?;
    Ok(FieldRef {
        class,
        name,
        ty: ints(),
    })
}

/// The entries of the first test.
fn entries(alloc: Global) -> Result<Bytes, AllocError> {
    let mut bytes = Vec::new(alloc);
    bytes.extend_from_slice(&[0, 8])?;
    bytes.extend_from_slice(&[3, 255, 255, 255, 254])?;
    bytes.extend_from_slice(&[5, 0, 0, 0, 0, 0, 0, 0, 3])?;
    bytes.extend_from_slice(&[1, 0, 2, 192, 128])?;
    bytes.extend_from_slice(&[8, 0, 4, 7, 0, 4])?;
    bytes.extend_from_slice(b"\x01\x00\x04Code")?;
    Ok(Seq::from_vec(bytes))
}

/// Entries that are there are found again, and the others stand last; a Long takes two indices.
#[test]
fn constants_and_texts(rt: HostRuntime) -> Result<(), Fail> {
    let alloc = rt.alloc();
    let mut pool = PoolWriter::new(alloc)?;
    let constant = Constant::Int(-2);
    assert_eq!(rt; put_constant(alloc, &mut pool, &constant)?, 1);
    assert_eq!(rt; put_int(&mut pool, -2)?, 1);
    assert_eq!(rt; put_long(&mut pool, 3)?, 2);
    assert_eq!(rt; put_string(alloc, &mut pool, &[0])?, 5);
    let name = name(alloc, &[0])?;
    assert_eq!(rt; put_class(alloc, &mut pool, &name)?, 6);
    assert_eq!(rt; put_ascii(alloc, &mut pool, b"Code")?, 7);
    assert!(rt; pool.encode()?.as_slice() == entries(alloc)?.as_slice());
    Ok(())
}

/// A member behind its class, its name, its descriptor and these two.
#[test]
fn a_field(rt: HostRuntime) -> Result<(), Fail> {
    let alloc = rt.alloc();
    let mut pool = PoolWriter::new(alloc)?;
    let field = field(alloc)?;
    assert_eq!(rt; put_field(alloc, &mut pool, &field)?, 6);
    assert_eq!(rt; put_field(alloc, &mut pool, &field)?, 6);
    let ints = ints();
    assert_eq!(rt; put_field_type(alloc, &mut pool, &ints)?, 4);
    assert_eq!(rt; put_type(alloc, &mut pool, &ints)?, 7);
    Ok(())
}

#[test]
fn a_method(rt: HostRuntime) -> Result<(), Fail> {
    let alloc = rt.alloc();
    let mut pool = PoolWriter::new(alloc)?;
    let method = method(alloc)?;
    assert_eq!(rt; put_method(alloc, &mut pool, &method)?, 6);
    let desc = nothing(alloc);
    assert_eq!(rt; put_desc(alloc, &mut pool, &desc)?, 4);
    Ok(())
}

/// Numbers with their highest byte first, and laws that do nothing.
#[test]
fn numbers(rt: HostRuntime) -> Result<(), Fail> {
    let mut out = Vec::new(rt.alloc());
    put_u16(&mut out, 0x102)?;
    put_u32(&mut out, 0x304_0506)?;
    assert!(rt; out.as_slice() == [1, 2, 3, 4, 5, 6].as_slice());
    named_indices();
    spelled_bytes();
    Ok(())
}
