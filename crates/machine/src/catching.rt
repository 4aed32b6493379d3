//! What a method does with an exception (JVMS 2.10).

ghost use Rattle.std.specs.Prelude.{◌≡◌, List, ℕ, slice_get};
ghost use Rattle.linked_code.specs.World.{World};
ghost use Rattle.linked_code.specs.Links.{Links};
ghost use Rattle.linked_code.specs.Kept as kept;
ghost use Rattle.machine.specs.Caught.{Judges, caught_by, takes};

use linked_code::{Handler, Program};
use machine_words::Tag;

/// What a method does with an exception that is thrown in it: it goes on at a handler, or it is the initializer of a class, which
/// fails, or the exception passes to the caller.
#[derive(Clone, Copy, Debug)]
pub enum Verdict {
    Lands(u32),
    Fails(u32),
    Passes,
}

/// What the method of a number does with an exception of a class, thrown at one of its instructions.
#[tactic(auto, using(crate::proofs::LinkedHandlers::catching_at, crate::proofs::LinkedHandlers::begins_at))]
pub fn judge<T: Tag>(program: &Program<T>, method: u32, thrown: u32, at: usize) -> Verdict
    ensures { (w : World T) → Links T.none_of w program.now → Judges w (w.method method) (w.class thrown) at result }
{
    let method = program.method(method);
    let fits = program.class(thrown).fits.as_slice();
    match caught_by(fits, method.handlers.as_slice(), at) {
        Some(target) => Verdict::Lands(target),
        None => match method.begins {
            Some(class) => Verdict::Fails(class),
            None => Verdict::Passes,
        },
    }
}

fn caught_by(fits: &[u32], handlers: &[Handler], at: usize) -> Option<u32>
    ensures { result ≡ caught_by fits.now handlers.now at }
{
    for handler in handlers {
        let covers = handler.start as usize <= at && at < handler.end as usize;
        if covers && takes(fits, handler.caught) {
            return Some(handler.target);
        }
    }
    None
}

fn takes(fits: &[u32], caught: Option<u32>) -> bool
    ensures { result ≡ takes fits.now caught }
{
    match caught {
        None => true,
        Some(class) => is_among(fits, class),
    }
}

/// Whether a number is in a list.
pub fn is_among(list: &[u32], number: u32) -> bool
    ensures { result ≡ kept.is_among list.now number }
{
    for one in list {
        if *one == number {
            return true;
        }
    }
    false
}
