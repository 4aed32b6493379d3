//! A run of the plain machine.

ghost use Rattle.std.specs.Prelude.{◌≡◌, ◌<◌, ◌≤◌, ◌+◌, ◌⊎◌, List, ℕ, length, is_none, IfOk, OnErr};
ghost use Rattle.run_state.specs.Observation.{HasMain};
ghost use Rattle.program_links.specs.WorldOf.{name_at};
ghost use Rattle.machine.specs.Turned.{FedOn};
ghost use Rattle.plain_machine.specs.Standing.{Answers, Feeds, GoesOn, GoesWithin, HasEnded, IsOfSame, IsOpen, IsWaiting, StandsAt, StandsWith, console_of, fed_of, is_closed, main_of, set_of, state_at};
ghost use Rattle.plain_machine.specs.Endings.{ending_shown, told};

use crate::endings::ending_told;
use crate::untagged::Untagged;
use linked_code::Program;
use machine::{Machine, Turn};
use program_links::link;
use run_state::{Ending, Report};
use set_lookups::ClassId;
use std::alloc::{AllocError, Global};
use verifier::VerifiedSet;

/// A run of the plain machine over a verified set, from the call of one class's `main`.
#[derive(Drop)]
pub struct PlainRun<'a> {
    set: &'a VerifiedSet,
    main: ClassId,
    program: Program<Untagged>,
    machine: Machine<Untagged>,
    /// Whether nothing comes behind the byte that is fed.
    closed: bool,
}

impl<'a> PlainRun<'a> {
    /// The run at its start, before its first step. The main class declares a static `main([Ljava/lang/String;)V` that is not native.
    #[tactic(auto, using(crate::proofs::Starts::stands))]
    pub fn start(
        alloc: Global,
        set: &'a VerifiedSet,
        main: ClassId,
    ) -> Result<PlainRun<'a>, AllocError>
        requires there { main.0 < length set.now }
        requires main { HasMain set.now (name_at set.now main.0) }
        ensures set { IfOk result (λ run. (set_of run ≡ set.now) × (main_of run ≡ name_at set.now main.0)) }
        ensures unfed { IfOk result IsOpen }
        ensures stands { IfOk result (λ run. (input : List ℕ) → StandsWith run input 0 input) }
    {
        let program = link(alloc, set.set(), main)?;
        let machine = machine::start(alloc, &program)?;
        Ok(PlainRun {
            set,
            main,
            program,
            machine,
            closed: false,
        })
    }

    /// One step: `Went` where it was made, `Wants` where it takes a byte of the input that is not known, `Ended` where the run has ended.
    /// A refusal leaves the run as it was.
    #[tactic(auto, using(crate::proofs::Steps::answered))]
    pub fn step(&mut self) -> Result<Turn, AllocError>
        ensures answers { IfOk result (Answers self.old self.new) }
        ensures err { OnErr result (self.new ≡ self.old) }
        ensures same { IsOfSame self.old self.new }
        ensures closed { is_closed self.new ≡ is_closed self.old }
    {
        machine::step(&mut self.machine, &self.program, self.closed)
    }

    /// Gives the next byte of the input, or its end, after which each read answers -1. Takes no memory.
    #[tactic(auto, using(crate::proofs::Feeding::feeds))]
    pub fn feed(&mut self, byte: Option<u8>)
        requires { IsOpen self.old }
        ensures feeds { Feeds byte self.old self.new }
        ensures fed { fed_of self.new ≡ byte }
        ensures closed { is_closed self.new ≡ is_none byte }
        ensures same { IsOfSame self.old self.new }
    {
        self.machine.fed = byte;
        self.closed = byte.is_none();
    }

    /// Makes so many steps, or fewer where the run waits for a byte or has ended, and answers how many. A refusal may come in the midst.
    #[tactic(auto, using(crate::proofs::Steps::goes, crate::proofs::Steps::goes_within, crate::proofs::Steps::rests))]
    pub fn run(&mut self, steps: u64) -> Result<u64, AllocError>
        ensures on { IfOk result (λ made. (made ≤ steps) × GoesOn self.old self.new made) }
        ensures rests { IfOk result (λ made. made < steps → IsWaiting self.new ⊎ HasEnded self.new) }
        ensures err { OnErr result (GoesWithin self.old self.new steps) }
        ensures fed { FedOn (fed_of self.old) (fed_of self.new) }
        ensures same { IsOfSame self.old self.new }
        ensures closed { is_closed self.new ≡ is_closed self.old }
    {
        machine::run(&mut self.machine, &self.program, self.closed, steps)
    }

    /// The bytes that were written so far. Takes no memory.
    #[tactic(auto, using(crate::proofs::Telling::console))]
    pub fn console(&self) -> &[u8]
        ensures same { result.now ≡ console_of self.now }
        ensures told { (input : List ℕ) (k : ℕ) → StandsAt self.now input k → result.now ≡ (state_at self.now input k).outside.console }
    {
        self.machine.console.as_slice()
    }

    /// What `phosphor/Report.tag` reported so far. Takes no memory.
    #[tactic(auto, using(crate::proofs::Telling::reports))]
    pub fn reports(&self) -> &[Report]
        ensures { (input : List ℕ) (k : ℕ) → StandsAt self.now input k → result.now ≡ (state_at self.now input k).outside.reports }
    {
        self.machine.reports.as_slice()
    }

    /// How the run stands. Takes no memory.
    #[tactic(auto, using(crate::proofs::Telling::ending))]
    pub fn ending(&self) -> Ending
        ensures { (input : List ℕ) (k : ℕ) → StandsAt self.now input k → ending_shown (set_of self.now) result ≡ told (state_at self.now input k).ending }
    {
        ending_told(self.machine.ending)
    }
}
