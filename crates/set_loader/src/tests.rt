//! Loading made classes and the class file of a small program.

mod making;

use super::*;
use class_codec::BadKind;
use class_model::ClassDef;
use class_set::SetFault;
use lists::Name;
use making::{bytes_file, class, file};
use profile_check::{Names, OutOfProfile, ProfileKind};
use small_base::small_base;
use std::alloc::Global;
use std::test::Fail;
use verifier::VerifyRule;

/// Class `A` of major 52, whose `main` reads two bytes, adds them and writes the sum: `invokestatic` of
/// `sys/Native.read` at bytes 176 and 179, `iadd` at 182, `invokestatic` of `sys/Native.write`, `return`.
const SUM: [u8; 193] = [
    202, 254, 186, 190, 0, 0, 0, 52, 0, 18, 1, 0, 1, 65, 7, 0, 1, 1, 0, 16, 106, 97, 118, 97, 47,
    108, 97, 110, 103, 47, 79, 98, 106, 101, 99, 116, 7, 0, 3, 1, 0, 4, 109, 97, 105, 110, 1, 0,
    22, 40, 91, 76, 106, 97, 118, 97, 47, 108, 97, 110, 103, 47, 83, 116, 114, 105, 110, 103, 59,
    41, 86, 1, 0, 4, 67, 111, 100, 101, 1, 0, 10, 115, 121, 115, 47, 78, 97, 116, 105, 118, 101, 7,
    0, 8, 1, 0, 4, 114, 101, 97, 100, 1, 0, 3, 40, 41, 73, 12, 0, 10, 0, 11, 10, 0, 9, 0, 12, 1, 0,
    5, 119, 114, 105, 116, 101, 1, 0, 4, 40, 73, 41, 86, 12, 0, 14, 0, 15, 10, 0, 9, 0, 16, 0, 33,
    0, 2, 0, 4, 0, 0, 0, 0, 0, 1, 0, 9, 0, 5, 0, 6, 0, 1, 0, 7, 0, 0, 0, 23, 0, 2, 0, 1, 0, 0, 0,
    11, 184, 0, 13, 184, 0, 13, 96, 184, 0, 17, 177, 0, 0, 0, 0, 0, 0,
];

#[test]
fn the_sum(rt: HostRuntime) -> Result<(), Fail> {
    let alloc = rt.alloc();
    let sum = bytes_file(alloc, &SUM)?;
    let loaded = load_set(alloc, &[sum], Names::Source)
        .ok()
        .ok_or("not loaded")?;
    let set = loaded.set();
    assert_eq!(rt; set.len(), 22);
    assert_eq!(rt; set.find("A").map(|id| id.0), Some(0));
    assert_eq!(rt; set.find("java/io/IOException").map(|id| id.0), Some(1));
    assert_eq!(rt; set.find("sys/Native").map(|id| id.0), Some(21));
    Ok(())
}

#[test]
fn no_class(rt: HostRuntime) -> Result<(), Fail> {
    let loaded = load_set(rt.alloc(), &[], Names::Source)
        .ok()
        .ok_or("not loaded")?;
    assert_eq!(rt; loaded.set().len(), 21);
    Ok(())
}

/// The file that is cut is told before the one that is out of the profile.
#[test]
fn a_file_cut(rt: HostRuntime) -> Result<(), Fail> {
    let alloc = rt.alloc();
    let files = [
        file(alloc, &class(alloc, "../x", "java/lang/Object")?)?,
        bytes_file(alloc, &SUM[..7])?,
    ];
    assert_eq!(rt;
        load_set(alloc, &files, Names::Source).err(),
        Some(LoadStop::Bad {
            file: 1,
            place: 6,
            kind: BadKind::Short
        })
    );
    Ok(())
}

/// A class out of the profile is told before one that is there twice.
#[test]
fn a_bad_name(rt: HostRuntime) -> Result<(), Fail> {
    let alloc = rt.alloc();
    let files = [
        bytes_file(alloc, &SUM)?,
        bytes_file(alloc, &SUM)?,
        file(alloc, &class(alloc, "../x", "java/lang/Object")?)?,
    ];
    let fault = OutOfProfile {
        kind: ProfileKind::BadName,
        member: None,
        at: None,
    };
    assert_eq!(rt;
        load_set(alloc, &files, Names::Source).err(),
        Some(LoadStop::Profile { file: 2, fault })
    );
    Ok(())
}

#[test]
fn a_later_version(rt: HostRuntime) -> Result<(), Fail> {
    let alloc = rt.alloc();
    let later = ClassDef {
        major: 53,
        ..class(alloc, "A", "java/lang/Object")?
    };
    let fault = OutOfProfile {
        kind: ProfileKind::Version(53),
        member: None,
        at: None,
    };
    assert_eq!(rt;
        load_set(alloc, &[file(alloc, &later)?], Names::Source).err(),
        Some(LoadStop::Profile { file: 0, fault })
    );
    Ok(())
}

#[test]
fn a_class_twice(rt: HostRuntime) -> Result<(), Fail> {
    let alloc = rt.alloc();
    let files = [bytes_file(alloc, &SUM)?, bytes_file(alloc, &SUM)?];
    let twice = SetFault::Duplicate(Name::from_str(alloc, "A")?);
    assert_eq!(rt;
        load_set(alloc, &files, Names::Source).err(),
        Some(LoadStop::Set(twice))
    );
    Ok(())
}

#[test]
fn an_absent_superclass(rt: HostRuntime) -> Result<(), Fail> {
    let alloc = rt.alloc();
    let files = [file(alloc, &class(alloc, "X", "Y")?)?];
    let absent = SetFault::Missing(Name::from_str(alloc, "Y")?);
    assert_eq!(rt;
        load_set(alloc, &files, Names::Source).err(),
        Some(LoadStop::Set(absent))
    );
    Ok(())
}

#[test]
fn a_cycle(rt: HostRuntime) -> Result<(), Fail> {
    let alloc = rt.alloc();
    let files = [
        file(alloc, &class(alloc, "X", "Y")?)?,
        file(alloc, &class(alloc, "Y", "X")?)?,
    ];
    let cycle = SetFault::Cycle(Name::from_str(alloc, "X")?);
    assert_eq!(rt;
        load_set(alloc, &files, Names::Source).err(),
        Some(LoadStop::Set(cycle))
    );
    Ok(())
}

/// The sum with its addition before the second read.
#[test]
fn an_addition_of_one_number(rt: HostRuntime) -> Result<(), Fail> {
    let alloc = rt.alloc();
    let mut bytes = SUM;
    bytes[179] = SUM[182];
    bytes[180] = SUM[179];
    bytes[181] = SUM[180];
    bytes[182] = SUM[181];
    let files = [bytes_file(alloc, &bytes)?];
    let unverified = LoadStop::Unverified {
        class: Name::from_str(alloc, "A")?,
        name: Name::from_str(alloc, "main")?,
        desc: Name::from_str(alloc, "([Ljava/lang/String;)V")?,
        at: 1,
        rule: VerifyRule::Operand,
    };
    assert_eq!(rt;
        load_set(alloc, &files, Names::Source).err(),
        Some(unverified)
    );
    Ok(())
}

#[test]
fn a_long_chain(rt: HostRuntime) -> Result<(), Fail> {
    let alloc = rt.alloc();
    let mut files = Vec::new(alloc);
    let mut above = String::from_str(alloc, "java/lang/Object")?;
    for number in 0..2000 {
        let name = format!(in alloc; "C{number}")?;
        files.push(file(alloc, &class(alloc, &name, &above)?)?)?;
        above = name;
    }
    assert_eq!(rt; files.len(), 2000);
    let loaded = load_set(alloc, &files, Names::Source)
        .ok()
        .ok_or("not loaded")?;
    assert_eq!(rt; loaded.set().len(), 2021);
    Ok(())
}

/// The class file of each class of the small base.
fn base_files(alloc: Global) -> Result<Vec<File>, Fail> {
    let mut files = Vec::new(alloc);
    for class in &small_base(alloc)? {
        files.push(file(alloc, class)?)?;
    }
    Ok(files)
}

/// A folder with its own `java/lang/Object` gets no class besides.
#[test]
fn a_folder_with_its_own_object(rt: HostRuntime) -> Result<(), Fail> {
    let alloc = rt.alloc();
    let files = base_files(alloc)?;
    assert_eq!(rt; files.len(), 21);
    let loaded = load_set(alloc, &files, Names::Source)
        .ok()
        .ok_or("not loaded")?;
    assert_eq!(rt; loaded.set().len(), 21);
    Ok(())
}

/// Nor the core classes that it lacks.
#[test]
fn an_object_by_itself(rt: HostRuntime) -> Result<(), Fail> {
    let alloc = rt.alloc();
    let mut files = base_files(alloc)?;
    assert!(rt; files.len() > 15);
    let object = [files.swap_remove(15)];
    let absent = SetFault::Core(Name::from_str(alloc, "java/lang/String")?);
    assert_eq!(rt;
        load_set(alloc, &object, Names::Source).err(),
        Some(LoadStop::Set(absent))
    );
    Ok(())
}
