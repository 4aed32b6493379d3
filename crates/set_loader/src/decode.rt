//! The first pass: decoding.

ghost use Rattle.std.specs.Prelude.{◌≤◌, length, MatchResult};
ghost use Rattle.std.specs.List.{AllZip};
ghost use Rattle.set_loader.specs.Passes.{IsReadFrom, RefusesDecoding, RefusesFile};

use crate::file::File;
use crate::stop::LoadStop;
use class_codec::{BadClass, decode_class};
use class_model::ClassDef;
use std::alloc::Global;

/// The class of a file of this number.
fn read_class(alloc: Global, number: u32, file: &File) -> Result<ClassDef, LoadStop>
    ensures { MatchResult result (IsReadFrom file.now) (RefusesFile number file.now) }
{
    match decode_class(alloc, file.bytes.as_slice()) {
        Ok(class) => Ok(class),
        Err(BadClass::Bad { place, kind }) => Err(LoadStop::Bad {
            file: number,
            place,
            kind,
        }),
        Err(BadClass::Memory) => Err(LoadStop::Memory),
    }
}

/// The classes of files, one each.
pub(crate) fn read_classes(alloc: Global, files: &[File]) -> Result<Vec<ClassDef>, LoadStop>
    requires { length files.now ≤ 1000000 }
    ensures { MatchResult result (λ classes. AllZip IsReadFrom files.now classes.items) (RefusesDecoding files.now) }
{
    let mut classes = Vec::new(alloc);
    for (number, file) in files.iter().enumerate() {
        let class = read_class(alloc, number as u32, file)?;
        classes.push(class)?;
    }
    Ok(classes)
}
