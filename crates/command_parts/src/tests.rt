//! One line of each kind of refusal.

use crate::{Stop, load_line, tell};
use class_input::BadKind;
use class_set::SetFault;
use lists::{Bytes, Name, Path, Seq};
use outside_io::MemSink;
use profile_check::{OutOfProfile, ProfileKind};
use set_loader::{File, LoadStop};
use std::alloc::Global;
use std::test::Fail;
use type_rows::VerifyRule;

fn one_file(alloc: Global) -> Result<File, Fail> {
    Ok(File {
        path: Path::from_str(alloc, "a/A.class")?,
        bytes: Seq::new(alloc),
    })
}

fn bad_line(alloc: Global, kind: BadKind) -> Result<Bytes, Fail> {
    let stop = LoadStop::Bad {
        file: 0,
        place: 12,
        kind,
    };
    Ok(load_line(alloc, &stop, &[one_file(alloc)?])?)
}

fn profile_line(alloc: Global, kind: ProfileKind) -> Result<Bytes, Fail> {
    let fault = OutOfProfile {
        kind,
        member: Some(1),
        at: None,
    };
    let stop = LoadStop::Profile { file: 0, fault };
    Ok(load_line(alloc, &stop, &[one_file(alloc)?])?)
}

fn set_line(alloc: Global, fault: SetFault) -> Result<Bytes, Fail> {
    Ok(load_line(alloc, &LoadStop::Set(fault), &[])?)
}

fn types_line(alloc: Global, rule: VerifyRule) -> Result<Bytes, Fail> {
    let stop = LoadStop::Unverified {
        class: Name::from_str(alloc, "a/B")?,
        name: Name::from_str(alloc, "m")?,
        desc: Name::from_str(alloc, "(I)V")?,
        at: 4,
        rule,
    };
    Ok(load_line(alloc, &stop, &[])?)
}

#[test]
fn bad_places(rt: HostRuntime) -> Result<(), Fail> {
    let alloc = rt.alloc();
    let rows = [
        (BadKind::Short, "short"),
        (BadKind::Magic, "magic"),
        (BadKind::PoolTag(2), "pool tag 2"),
        (BadKind::PoolCount, "pool count"),
        (BadKind::PoolIndex(300), "pool index 300"),
        (BadKind::PoolKind(7), "pool kind 7"),
        (BadKind::Text, "text"),
        (BadKind::Descriptor, "descriptor"),
        (BadKind::Code(203), "opcode 203"),
        (BadKind::Operand, "operand"),
        (BadKind::Target, "target"),
        (BadKind::Frame(128), "frame 128"),
        (BadKind::AttrLength, "attribute length"),
        (BadKind::Twice, "twice"),
        (BadKind::CodeLength, "code length"),
        (BadKind::Trailing, "trailing"),
    ];
    for (kind, text) in rows {
        let line = bad_line(alloc, kind)?;
        let want = format!(in alloc; "refused: a/A.class: byte 12: {text}\n")?;
        assert!(rt; line.as_slice() == want.as_bytes(), "{text}");
    }
    Ok(())
}

#[test]
fn rows_of_the_profile(rt: HostRuntime) -> Result<(), Fail> {
    let alloc = rt.alloc();
    let rows = vec![in alloc;
        (ProfileKind::Version(53), "version 53"),
        (ProfileKind::ClassFlags, "class flags"),
        (ProfileKind::FieldFlags, "field flags"),
        (ProfileKind::MethodFlags, "method flags"),
        (ProfileKind::FloatType, "float type"),
        (ProfileKind::BadName, "bad name"),
        (
            ProfileKind::Reserved(Name::from_str(alloc, "phosphor/A")?),
            "reserved phosphor/A"
        ),
        (ProfileKind::CodeShape, "code shape"),
        (ProfileKind::Native, "native"),
        (ProfileKind::InterfaceMethod, "interface method"),
        (ProfileKind::Initializer, "initializer"),
        (ProfileKind::Constant, "constant"),
        (ProfileKind::TwiceMember, "twice"),
        (ProfileKind::Params, "parameters"),
        (ProfileKind::Super, "super"),
        (ProfileKind::OutName, "out name"),
        (ProfileKind::ArrayMember, "array member"),
    ]?;
    for (kind, text) in rows {
        let line = profile_line(alloc, kind)?;
        let want = format!(in alloc; "refused: a/A.class: profile: {text}\n")?;
        assert!(rt; line.as_slice() == want.as_bytes(), "{text}");
    }
    Ok(())
}

/// Whether the line of a fault has this text.
fn is_told(alloc: Global, fault: SetFault, text: &str) -> Result<bool, Fail> {
    let line = set_line(alloc, fault)?;
    let want = format!(in alloc; "refused: set: {text}\n")?;
    Ok(line.as_slice() == want.as_bytes())
}

#[test]
fn faults_of_a_set(rt: HostRuntime) -> Result<(), Fail> {
    let alloc = rt.alloc();
    let name = Name::from_str(alloc, "a/é")?;
    assert!(rt; is_told(alloc, SetFault::Duplicate(name.clone()?), "duplicate a/é")?);
    assert!(rt; is_told(alloc, SetFault::Missing(name.clone()?), "missing a/é")?);
    assert!(rt; is_told(alloc, SetFault::Cycle(name.clone()?), "cycle a/é")?);
    assert!(rt;
        is_told(
            alloc,
            SetFault::FinalSuper(name.clone()?),
            "final super a/é"
        )?
    );
    assert!(rt; is_told(alloc, SetFault::Core(name.clone()?), "core a/é")?);
    assert!(rt; is_told(alloc, SetFault::Abstract(name), "abstract a/é")?);
    let member = Name::from_str(alloc, "A.m()V")?;
    assert!(rt;
        is_told(
            alloc,
            SetFault::Unresolved(member.clone()?),
            "unresolved A.m()V"
        )?
    );
    assert!(rt; is_told(alloc, SetFault::WrongKind(member), "wrong kind A.m()V")?);
    Ok(())
}

#[test]
fn rules_of_types(rt: HostRuntime) -> Result<(), Fail> {
    let alloc = rt.alloc();
    let rows = [
        (VerifyRule::NoFrame, "no frame"),
        (VerifyRule::Merge, "merge"),
        (VerifyRule::Shape, "shape"),
        (VerifyRule::Handler, "handler"),
        (VerifyRule::Local, "local"),
        (VerifyRule::Operand, "operand"),
        (VerifyRule::Room, "room"),
        (VerifyRule::Branch, "branch"),
        (VerifyRule::Init, "init"),
        (VerifyRule::Result, "result"),
        (VerifyRule::End, "end"),
    ];
    for (rule, text) in rows {
        let line = types_line(alloc, rule)?;
        let want = format!(in alloc; "refused: a/B.m(I)V: instruction 4: {text}\n")?;
        assert!(rt; line.as_slice() == want.as_bytes(), "{text}");
    }
    Ok(())
}

/// A surrogate without its partner stands as it does in a class file.
#[test]
fn a_class_that_is_not_built(rt: HostRuntime) -> Result<(), Fail> {
    let alloc = rt.alloc();
    let stop = Stop::NotBuilt(Name::from_units(alloc, &[0x41, 0xe9, 0xd800])?);
    let mut err = MemSink::new(alloc, 100, Vec::new(alloc))?;
    let status = tell(&mut err, &stop);
    assert_eq!(rt; status, 2);
    assert!(rt; err.held() == b"refused: not built: A\xc3\xa9\xed\xa0\x80\n".as_slice());
    Ok(())
}
