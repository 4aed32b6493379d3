//! The natives that a class may declare: this project's own list.

ghost use Rattle.std.specs.Prelude.{◌≡◌, ◌&&◌};
ghost use Rattle.std.specs.List.{list_any};
ghost use Rattle.lists.specs.Texts.{units_of};
ghost use Rattle.profile_check.specs.Names.{same_name};
ghost use Rattle.profile_check.specs.Types.{same_desc};
ghost use Rattle.profile_check.specs.Types as types;
ghost use Rattle.profile_check.specs.Members as table;

use crate::names::is_text;
use crate::profile::Names;
use crate::types::{is_int, is_object};
use class_model::{ClassDef, MethodDef, MethodDesc};

/// Whether a method of a class has these names.
fn has_names(class: &ClassDef, method: &MethodDef, class_name: &str, name: &str) -> bool
    ensures { result ≡ (same_name class.now.name (units_of class_name.now) && same_name method.now.name (units_of name.now)) }
{
    is_text(&class.name, class_name) && is_text(&method.name, name)
}

/// Whether a descriptor is `()I`.
fn gives_int(desc: &MethodDesc) -> bool
    ensures { result ≡ same_desc desc.now types.int_from_nothing }
{
    match (desc.params.as_slice(), &desc.result) {
        ([], Some(given)) => is_int(given),
        _ => false,
    }
}

/// Whether a descriptor is `(I)V`.
fn takes_int(desc: &MethodDesc) -> bool
    ensures { result ≡ same_desc desc.now types.nothing_from_int }
{
    match (desc.params.as_slice(), &desc.result) {
        ([number], None) => is_int(number),
        _ => false,
    }
}

/// Whether a descriptor is `(III)V`.
fn takes_three_ints(desc: &MethodDesc) -> bool
    ensures { result ≡ same_desc desc.now types.nothing_from_three_ints }
{
    match (desc.params.as_slice(), &desc.result) {
        ([sink, argument, tag], None) => is_int(sink) && is_int(argument) && is_int(tag),
        _ => false,
    }
}

/// Whether a descriptor is `(Ljava/lang/Object;ILjava/lang/Object;II)V`.
fn takes_two_arrays(desc: &MethodDesc) -> bool
    ensures { result ≡ same_desc desc.now types.nothing_from_two_arrays }
{
    match (desc.params.as_slice(), &desc.result) {
        ([from, from_at, to, to_at, count], None) => {
            is_object(from) && is_int(from_at) && is_object(to) && is_int(to_at) && is_int(count)
        }
        _ => false,
    }
}

fn is_read(class: &ClassDef, method: &MethodDef) -> bool
    ensures { result ≡ table.is_that_native class.now method.now table.read_native }
{
    has_names(class, method, "sys/Native", "read") && gives_int(&method.desc)
}

fn is_write(class: &ClassDef, method: &MethodDef) -> bool
    ensures { result ≡ table.is_that_native class.now method.now table.write_native }
{
    has_names(class, method, "sys/Native", "write") && takes_int(&method.desc)
}

fn is_exit(class: &ClassDef, method: &MethodDef) -> bool
    ensures { result ≡ table.is_that_native class.now method.now table.exit_native }
{
    has_names(class, method, "sys/Native", "exit") && takes_int(&method.desc)
}

fn is_arraycopy(class: &ClassDef, method: &MethodDef) -> bool
    ensures { result ≡ table.is_that_native class.now method.now table.arraycopy_native }
{
    has_names(class, method, "java/lang/System", "arraycopy") && takes_two_arrays(&method.desc)
}

fn is_report(class: &ClassDef, method: &MethodDef) -> bool
    ensures { result ≡ table.is_that_native class.now method.now table.report_native }
{
    has_names(class, method, "phosphor/Report", "tag") && takes_three_ints(&method.desc)
}

/// Whether a method is a native that a class may declare, flags aside.
pub fn is_native(names: Names, class: &ClassDef, method: &MethodDef) -> bool
    ensures { result ≡ list_any (table.is_that_native class.now method.now) (table.natives names) }
{
    is_read(class, method)
        || is_write(class, method)
        || is_exit(class, method)
        || is_arraycopy(class, method)
        || (names == Names::Written && is_report(class, method))
}
