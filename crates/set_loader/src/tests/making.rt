//! Classes without members, and files of classes.

use crate::File;
use class_codec::encode_class;
use class_model::ClassDef;
use class_shape::is_shaped;
use lists::{Name, Path, Seq};
use std::alloc::{AllocError, Global};
use std::test::Fail;

/// A public class of major 52 below another, without members.
pub(crate) fn class(alloc: Global, name: &str, above: &str) -> Result<ClassDef, AllocError> {
    Ok(ClassDef {
        minor: 0,
        major: 52,
        flags: 0x21,
        name: Name::from_str(alloc, name)?,
        super_name: Some(Name::from_str(alloc, above)?),
        interfaces: Seq::new(alloc),
        fields: Seq::new(alloc),
        methods: Seq::new(alloc),
        source: None,
        inner: Seq::new(alloc),
    })
}

/// A file of these bytes.
pub(crate) fn bytes_file(alloc: Global, bytes: &[u8]) -> Result<File, AllocError> {
    Ok(File {
        path: Path::from_str(alloc, "some.class")?,
        bytes: Seq::from_vec(Vec::from_slice(alloc, bytes)?),
    })
}

/// The class file of a class.
pub(crate) fn file(alloc: Global, class: &ClassDef) -> Result<File, Fail> {
    if !is_shaped(class) {
        return Err("a class that no bytes give".into());
    }
    Ok(File {
        path: Path::from_str(alloc, "some.class")?,
        bytes: encode_class(alloc, class)?,
    })
}
