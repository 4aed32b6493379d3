//! Linking handlers.

ghost use Rattle.std.specs.Prelude.{◌≡◌, ℕ, Some, IfOk, length};
ghost use Rattle.std.specs.Option.{option_copied};
ghost use Rattle.set_lookups.specs.Above.{find_class};
ghost use Rattle.program_links.specs.Each.{EachTo};
ghost use Rattle.program_links.specs.MethodTo.{NameTo, HandlerTo, IsNamed, AreNamed};

use crate::linking::class_number;
use class_set::ClassSet;
use linked_code::Handler;
use lists::{Name, Seq};
use std::alloc::{AllocError, Global};

/// The number of a class, where one is named.
fn name_number(set: &ClassSet, name: Option<&Name>) -> Option<u32>
    requires { IsNamed set.now (option_copied name) }
    ensures { NameTo set.now (option_copied name.entry) result }
{
    match name {
        Some(name) => Some(class_number(set, name)),
        None => None,
    }
}

fn link_handler(set: &ClassSet, handler: &class_model::Handler) -> Handler
    requires { IsNamed set.now handler.now.caught }
    ensures { HandlerTo set.now handler.now result }
{
    Handler {
        start: handler.start,
        end: handler.end,
        target: handler.target,
        caught: name_number(set, handler.caught.as_ref()),
    }
}

/// Links the handlers of a method.
#[tactic(auto, using(crate::proofs::EachMore::each_more, crate::proofs::EachMore::each_none))]
pub fn link_handlers(
    alloc: Global,
    set: &ClassSet,
    handlers: &Seq<class_model::Handler>,
) -> Result<Seq<Handler>, AllocError>
    requires { AreNamed set.now handlers.now }
    ensures { IfOk result (λ linked. EachTo (HandlerTo set.now) handlers.now linked (length handlers.now)) }
{
    let mut linked = Seq::new(alloc);
    for at in 0..handlers.len() {
        linked.push(link_handler(set, handlers.at(at)))?;
    }
    Ok(linked)
}
