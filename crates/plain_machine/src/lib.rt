//! The plain machine's run over a verified set: `start`, then steps of the definition's plain machine, one or many at a time, with
//! the input fed byte by byte as the run wants it.
//!
//! A run keeps neither its input nor the number of its steps. So what is promised is said call by call, for every input and every
//! number: `StandsWith run input k rest` says that for this input the run is where the definition is after k steps (`plain_at`), and
//! that `rest` is what the input has behind the byte that is fed.
//!
//! - `start` stands at 0, for every input;
//! - a step that went stands one further, and n steps n further; after a refusal for want of memory a run of steps stands somewhere on
//!   that way, and a single step changes nothing;
//! - `Wants` is answered exactly where the next step takes a byte and neither that byte nor the end of the input is known; `Ended` exactly
//!   where the run has ended; nothing changes then;
//! - what is fed keeps the number, for the inputs that go on with that byte, or that end there;
//! - console, reports and ending are those of the state at which the run stands.
//!
//! The definition has one ending more, for a state of which no rule speaks. It is told as `Running`; such a run answers `Ended`.
#![tactic(auto)]

mod endings;
mod plain_run;
mod untagged;

pub use machine::Turn;
pub use plain_run::PlainRun;
