//! The words of a command.

ghost use Rattle.std.specs.Prelude.{◌≡◌, ℕ, List, MatchOption, map, string_bytes};
ghost use Rattle.std.specs.Str.{all_ascii_digits};
ghost use Rattle.phosphor_top.specs.Commands.{AreSteps, IsCheck, IsInstrument, IsNoCommand, IsRun, NamesFolder, Spells, SpellsCheck, SpellsInstrument, SpellsRun};
ghost use Rattle.phosphor_top.specs.Commands as spelled;
ghost use Rattle.phosphor_top.specs.Words as meant;

/// `instrument IN OUT CONFIG`: the folder that is read, the folder that is written, and the file of
/// the lists.
#[derive(Clone, Copy)]
pub(crate) struct Instrument<'a> {
    pub(crate) input: &'a str,
    pub(crate) output: &'a str,
    pub(crate) config: &'a str,
}

/// `run DIR MAIN STEPS`: the folder that is read, the word for the class whose `main` is run, and the most steps.
#[derive(Clone, Copy)]
pub(crate) struct Run<'a> {
    pub(crate) dir: &'a str,
    pub(crate) main: &'a str,
    pub(crate) steps: u64,
}

/// A command, with what its words name.
#[derive(Clone, Copy)]
pub(crate) enum Command<'a> {
    Instrument(Instrument<'a>),
    /// `check DIR`: the folder that is read.
    Check(&'a str),
    Run(Run<'a>),
}

/// A word without the slashes at its end.
fn without_slashes(word: &str) -> &str
    ensures { result.now ≡ spelled.without_slashes word.now }
{
    let mut dir = word;
    while let Some(front) = dir.strip_suffix('/') {
        dir = front;
    }
    dir
}

/// A folder as a word names it: without the slashes at its end, and not empty.
fn folder_word(word: &str) -> Option<&str>
    ensures { MatchOption result ((dir : List ℕ) → NamesFolder word.now dir → ⊥) (λ dir. NamesFolder word.now dir.now) }
{
    let dir = without_slashes(word);
    if dir.is_empty() { None } else { Some(dir) }
}

/// Whether these are digits alone.
fn are_digits(bytes: &[u8]) -> bool
    ensures { result ≡ all_ascii_digits bytes.now }
{
    match bytes {
        [] => true,
        [first, rest @ ..] => first.is_ascii_digit() && are_digits(rest),
    }
}

/// The number of 1 to 18 digits, which may begin with zeros.
#[tactic(auto, using(crate::proofs::Digits::no_steps, crate::proofs::Digits::never_err))]
fn steps_word(word: &str) -> Option<u64>
    ensures { MatchOption result ((steps : ℕ) → AreSteps word.now steps → ⊥) (λ steps. AreSteps word.now steps) }
{
    if word.is_empty() || word.len() > 18 {
        return None;
    }
    if !are_digits(word.as_bytes()) {
        return None;
    }
    match word.parse::<u64>() {
        Ok(steps) => Some(steps),
        Err(_) => None,
    }
}

/// What the words of `instrument` name, if they are some.
fn instrument_of(words: &[String]) -> Option<Instrument<'_>>
    ensures { MatchOption result (IsInstrument (map string_bytes words.now) → ⊥)
        (λ paths. SpellsInstrument (map string_bytes words.now) (meant.paths_of paths)) }
{
    let [name, input, output, config] = words else {
        return None;
    };
    if name.as_str() != "instrument" || config.is_empty() {
        return None;
    }
    Some(Instrument {
        input: folder_word(input.as_str())?,
        output: folder_word(output.as_str())?,
        config: config.as_str(),
    })
}

/// The folder that the words of `check` name, if they are some.
fn check_of(words: &[String]) -> Option<&str>
    ensures { MatchOption result (IsCheck (map string_bytes words.now) → ⊥)
        (λ dir. SpellsCheck (map string_bytes words.now) dir.now) }
{
    let [name, dir] = words else {
        return None;
    };
    if name.as_str() != "check" {
        return None;
    }
    folder_word(dir.as_str())
}

/// What the words of `run` name, if they are some.
fn run_of(words: &[String]) -> Option<Run<'_>>
    ensures { MatchOption result (IsRun (map string_bytes words.now) → ⊥)
        (λ program. SpellsRun (map string_bytes words.now) (meant.program_of program)) }
{
    let [name, dir, main, steps] = words else {
        return None;
    };
    if name.as_str() != "run" || main.is_empty() {
        return None;
    }
    Some(Run {
        dir: folder_word(dir.as_str())?,
        main: main.as_str(),
        steps: steps_word(steps.as_str())?,
    })
}

/// The command that words spell, if they spell one that is built.
pub(crate) fn command_of(words: &[String]) -> Option<Command<'_>>
    ensures { MatchOption result (IsNoCommand (map string_bytes words.now))
        (λ command. Spells (map string_bytes words.now) (meant.command_of command)) }
{
    if let Some(paths) = instrument_of(words) {
        return Some(Command::Instrument(paths));
    }
    if let Some(dir) = check_of(words) {
        return Some(Command::Check(dir));
    }
    match run_of(words) {
        Some(program) => Some(Command::Run(program)),
        None => None,
    }
}
