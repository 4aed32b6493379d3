//! Class files that the tests are run on.

use class_codec::encode_class;
use class_model::ClassDef;
use class_shape::is_shaped;
use lists::{Bytes, Name, Seq};
use std::alloc::{AllocError, Global};
use std::test::Fail;

/// Class `A` of major 52, whose `main` reads two bytes, adds them and writes the sum: `invokestatic`
/// of `sys/Native.read` at bytes 176 and 179, `iadd` at 182, `invokestatic` of `sys/Native.write`,
/// `return`.
const SUM: [u8; 193] = [
    202, 254, 186, 190, 0, 0, 0, 52, 0, 18, 1, 0, 1, 65, 7, 0, 1, 1, 0, 16, 106, 97, 118, 97, 47,
    108, 97, 110, 103, 47, 79, 98, 106, 101, 99, 116, 7, 0, 3, 1, 0, 4, 109, 97, 105, 110, 1, 0,
    22, 40, 91, 76, 106, 97, 118, 97, 47, 108, 97, 110, 103, 47, 83, 116, 114, 105, 110, 103, 59,
    41, 86, 1, 0, 4, 67, 111, 100, 101, 1, 0, 10, 115, 121, 115, 47, 78, 97, 116, 105, 118, 101, 7,
    0, 8, 1, 0, 4, 114, 101, 97, 100, 1, 0, 3, 40, 41, 73, 12, 0, 10, 0, 11, 10, 0, 9, 0, 12, 1, 0,
    5, 119, 114, 105, 116, 101, 1, 0, 4, 40, 73, 41, 86, 12, 0, 14, 0, 15, 10, 0, 9, 0, 16, 0, 33,
    0, 2, 0, 4, 0, 0, 0, 0, 0, 1, 0, 9, 0, 5, 0, 6, 0, 1, 0, 7, 0, 0, 0, 23, 0, 2, 0, 1, 0, 0, 0,
    11, 184, 0, 13, 184, 0, 13, 96, 184, 0, 17, 177, 0, 0, 0, 0, 0, 0,
];

/// The class file of the sum.
pub(super) fn sum() -> &'static [u8] {
    &SUM
}

/// The class file of the sum with this byte at a place; past its end, the byte stands behind it.
pub(super) fn sum_with(alloc: Global, at: usize, byte: u8) -> Result<Vec<u8>, Fail> {
    let mut bytes = Vec::from_slice(alloc, sum())?;
    match bytes.get_mut(at) {
        Some(there) => *there = byte,
        None => bytes.push(byte)?,
    }
    Ok(bytes)
}

/// The class file of the sum with its addition before the second read.
pub(super) fn early_sum(alloc: Global) -> Result<Vec<u8>, Fail> {
    let mut bytes = Vec::from_slice(alloc, sum())?;
    for (at, byte) in [(179usize, 96u8), (180, 184), (181, 0), (182, 13)] {
        *bytes.get_mut(at).ok_or("a shorter file")? = byte;
    }
    Ok(bytes)
}

fn class(alloc: Global, name: &str, above: &str) -> Result<ClassDef, AllocError> {
    Ok(ClassDef {
        minor: 0,
        major: 52,
        flags: 0x21,
        name: Name::from_str(alloc, name)?,
        super_name: Some(Name::from_str(alloc, above)?),
        interfaces: Seq::new(alloc),
        fields: Seq::new(alloc),
        methods: Seq::new(alloc),
        source: None,
        inner: Seq::new(alloc),
    })
}

/// The class file of a public class of major 52 below another, without members.
pub(super) fn class_file(alloc: Global, name: &str, above: &str) -> Result<Bytes, Fail> {
    let class = class(alloc, name, above)?;
    if !is_shaped(&class) {
        return Err("a class that no bytes give".into());
    }
    Ok(encode_class(alloc, &class)?)
}
