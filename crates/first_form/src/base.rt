//! The class of reports.

ghost use Rattle.std.specs.Prelude.{◌≡◌, IfOk};
ghost use Rattle.first_form.specs.Base as spec;

use crate::natives::{Native, native_desc};
use class_model::ClassDef;
use lists::Seq;
use small_base::{class_below, native_method, single};
use std::alloc::{AllocError, Global};

/// `ACC_PUBLIC`, `ACC_FINAL` and `ACC_SUPER` (JVMS 4.1).
const PUBLIC_FINAL_SUPER: u16 = 0x0031;

/// `phosphor/Report`, with the native that reports a sink, an argument and a tag.
#[tactic(auto, unfolding(crate::specs::Base::report_class))]
pub fn report_class(alloc: Global) -> Result<ClassDef, AllocError>
    ensures { IfOk result (λ class. class ≡ spec.report_class) }
{
    let takes_three = native_desc(alloc, Native::Report)?;
    let methods = single(alloc, native_method(alloc, "tag", takes_three)?)?;
    class_below(
        alloc,
        PUBLIC_FINAL_SUPER,
        "phosphor/Report",
        "java/lang/Object",
        Seq::new(alloc),
        methods,
    )
}
