//! The names of the small base.

use super::*;
use std::test::Fail;

#[test]
fn names_in_their_order(rt: HostRuntime) -> Result<(), Fail> {
    let base = small_base(rt.alloc())?;
    assert_eq!(rt; base.len(), 21);
    for (number, class) in base.iter().enumerate() {
        if number > 0 {
            assert!(rt; base[number - 1].name.as_units() < class.name.as_units());
        }
    }
    assert!(rt; base[15].name.is("java/lang/Object"));
    assert!(rt; base[20].name.is("sys/Native"));
    Ok(())
}

#[test]
fn classes_before_the_base(rt: HostRuntime) -> Result<(), Fail> {
    let mut set = small_base(rt.alloc())?;
    assert_eq!(rt; before_base(&set).map(|classes| classes.len()), Some(0));
    set.append(&mut small_base(rt.alloc())?)?;
    assert_eq!(rt; before_base(&set).map(|classes| classes.len()), Some(21));
    let _native = set.pop();
    assert!(rt; before_base(&set).is_none());
    Ok(())
}
