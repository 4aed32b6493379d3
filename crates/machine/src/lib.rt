//! A machine that runs a linked program step by step, over tags of any kind: the plain machine is the one over no tag.
//!
//! # How it is laid out
//!
//! - **The program** (`linked_code`) is the set of classes with each reference resolved once, into a number or a place: a call has
//!   its method or its selector, a field its place, a static field its class and place, a cast the number of its type. Nothing is
//!   looked up by name at a step. A number past the last method, class or type is that of one that has nothing, so a number
//!   always leads somewhere, and neither the machine nor its contracts speak of numbers in range.
//! - **The state** is a top frame, the frames that wait below it, the areas that frames share (heap, static fields, literals), the
//!   classes that have begun, the byte of input that is fed, console, reports and the ending. A frame owns its locals and its
//!   operand stack, which has room for all its operands from the start. Classes and types are numbers here too.
//! - **A run** borrows the code of the top frame once, and makes steps that concern that frame alone in one small loop over the
//!   frame and the code (`frame_runs`), which touches nothing else. It leaves the loop for an instruction of another family, and
//!   comes back after it.
//!
//! # What is promised
//!
//! `shown w machine more` is the state of the definitions that a machine shows. `w` is a world: what the numbers of the program
//! stand for, with the look-ups and the rest of the tags' rules. `more` is the input behind the byte that is fed. `Links w program`
//! says that the numbers lead, in that world, to what the look-ups find; it is all that the machine knows of its program, and what
//! the linker promises. Each promise is for every such world:
//!
//! - an instruction of the frame and the areas turns them into new ones and leads on, to a throw, or to nothing, by the row of the
//!   definition, whatever lies around (`Acts`, one lemma for each way out of a row); `follow` then goes where it leads;
//! - a call comes to the method that it enters, to a throw, or to nothing (`Aims`); `follow_call` then goes there;
//! - returns, natives, the beginning of classes and throws change the frames: their clauses are equations of whole states;
//! - a step shows `step` of what was shown, and a run of n steps shows `run n` of it (`Reaches`);
//! - where a run waits for a byte of its input, or has ended, a step says so, changes nothing, and is not counted: it has ended
//!   exactly where the ending says so, and it waits exactly where no byte is fed, one may come, and the definition's next step takes
//!   it (`IsWaiting`); a run makes fewer steps than it may only there (`Rests`, `IsAtRest`). Whether more input can come is handed in
//!   (`closed`);
//! - a step that is refused memory leaves the machine as it was, and a run that is refused memory stands behind some of its steps
//!   (`ReachesWithin`);
//! - `start` is the machine of the definition's start, with the static fields as the program has them.
#![tactic(auto)]

mod acting;
mod arguments;
mod arrays;
mod beginning;
mod begun;
mod callers;
mod calling;
mod calls;
mod catching;
mod copying;
mod faults;
mod fetching;
mod fields;
mod frame_runs;
mod initial;
mod invoking;
mod literals;
mod making;
mod natives;
mod nesting;
mod operands;
mod performing;
mod requests;
mod returns;
mod roots;
mod runs;
mod state;
mod statics;
mod stepping;
mod throwing;
mod types;
mod unwinding;
mod values;

pub use begun::Begun;
pub use callers::Callers;
pub use initial::start;
pub use runs::{run, step};
pub use state::{Areas, Ending, Literal, Machine, Phase, Turn};
