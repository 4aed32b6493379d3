//! The written files of the small base alone, and a set that is not built.

use super::*;
use class_model::ClassDef;
use class_set::{ClassSet, are_counted};
use lists::Seq;
use run_state::{Config, Listed};
use size_limits::LimitStop;
use small_base::small_base;
use std::alloc::Global;
use std::process::Abort;
use std::test::Fail;
use verifier::{VerifiedSet, is_checkable, verify_set};

/// Classes as a set that verifies.
fn set_of(rt: &impl Abort, alloc: Global, classes: Vec<ClassDef>) -> Result<VerifiedSet, Fail> {
    let classes = Seq::from_vec(classes);
    assert!(rt; are_counted(classes.as_slice()));
    let set = ClassSet::build(alloc, classes)?;
    assert!(rt; is_checkable(&set));
    Ok(verify_set(alloc, set).ok().ok_or("a method fails")?)
}

#[test]
fn no_class(rt: HostRuntime) -> Result<(), Fail> {
    let config = Config {
        sources: Listed::new(rt.alloc()),
        sinks: Listed::new(rt.alloc()),
    };
    let set = set_of(&rt, rt.alloc(), small_base(rt.alloc())?)?;
    let files = instrument(rt.alloc(), &set, &config)?;
    assert_eq!(rt; files.len(), 22);
    assert_eq!(rt; files[0].path.as_str(), "java/io/IOException.class");
    assert_eq!(rt; files[20].path.as_str(), "phosphor/Report.class");
    Ok(())
}

#[test]
fn base_in_another_order(rt: HostRuntime) -> Result<(), Fail> {
    let config = Config {
        sources: Listed::new(rt.alloc()),
        sinks: Listed::new(rt.alloc()),
    };
    let mut classes = small_base(rt.alloc())?;
    let native = classes.pop().ok_or("no class")?;
    classes.insert(0, native)?;
    let set = set_of(&rt, rt.alloc(), classes)?;
    let refused = instrument(rt.alloc(), &set, &config);
    assert!(rt; matches!(refused, Err(LimitStop::NotBuilt { class: 0 })));
    Ok(())
}
