//! The entries of the lists that are built.

ghost use Rattle.std.specs.Prelude.{◌≡◌, IfOk};
ghost use Rattle.first_form.specs.FirstSet as built;

use lists::Name;
use run_state::{Sink, Source};
use small_base::{gives_int, takes_int};
use std::alloc::{AllocError, Global};

/// `sys/Native.read()I`, with its tag.
pub(crate) fn read_source(alloc: Global, tag: i32) -> Result<Source, AllocError>
    ensures { IfOk result (λ source. source ≡ built.read_source tag) }
{
    Ok(Source {
        class: Name::from_str(alloc, "sys/Native")?,
        name: Name::from_str(alloc, "read")?,
        desc: gives_int(alloc),
        tag,
    })
}

/// `sys/Native.write(I)V`.
pub(crate) fn write_sink(alloc: Global) -> Result<Sink, AllocError>
    ensures { IfOk result (λ sink. sink ≡ built.write_sink) }
{
    Ok(Sink {
        class: Name::from_str(alloc, "sys/Native")?,
        name: Name::from_str(alloc, "write")?,
        desc: takes_int(alloc)?,
    })
}
