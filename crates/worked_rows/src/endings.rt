//! The line of an ending.

use class_set::ClassSet;
use modified_utf8::units_text;
use run_state::Ending;
use set_lookups::ClassId;
use std::alloc::{AllocError, Global};

/// Puts the name of a class of the set behind a line.
fn add_class(
    alloc: Global,
    line: &mut Vec<u8>,
    set: &ClassSet,
    class: ClassId,
) -> Result<(), AllocError> {
    let Some(class) = set.classes().get(class.0 as usize) else {
        return Ok(());
    };
    let name = units_text(alloc, class.name.as_units())?;
    line.push(b' ')?;
    line.extend_from_slice(name.as_slice())?;
    Ok(())
}

/// How a run has ended, in words, with the classes by name.
pub fn ending_text(alloc: Global, set: &ClassSet, ending: Ending) -> Result<Vec<u8>, AllocError> {
    let mut line = Vec::new(alloc);
    match ending {
        Ending::Running => line.extend_from_slice(b"running")?,
        Ending::Returned => line.extend_from_slice(b"returned")?,
        Ending::Exit(status) => {
            let text = format!(in alloc; "exit {status}")?;
            line.extend_from_slice(text.as_bytes())?;
        }
        Ending::Uncaught(class) => {
            line.extend_from_slice(b"uncaught")?;
            add_class(alloc, &mut line, set, class)?;
        }
        Ending::InitFailed(class, exception) => {
            line.extend_from_slice(b"init failed")?;
            add_class(alloc, &mut line, set, class)?;
            add_class(alloc, &mut line, set, exception)?;
        }
    }
    Ok(line)
}
