//! The lists of sources and sinks with how often they name each class.

ghost use Rattle.std.specs.Prelude.{◌≡◌, ◌+◌, List, ℕ, OnOk, IfOk, count_by, if◌then◌else◌};
ghost use Rattle.class_limits.specs.Limits.{told};
ghost use Rattle.profile_check.specs.Names.{same_name};
ghost use Rattle.size_limits.specs.Mentions as mentions;
ghost use Rattle.size_limits.specs.Pool.{listed_letter};

use class_model::ClassDef;
use indexmap::IndexMap;
use lists::Name;
use run_state::{Config, Sink, Source};
use std::alloc::{AllocError, Global};
use std::marker::Model;

/// How often each name was met.
#[derive(Drop)]
struct Mentions {
    times: IndexMap<Name, u64>,
}

impl Model for Mentions {
    ghost use Rattle.std.specs.Prelude.{List, ℕ};

    ghost Value = { List (List ℕ × ℕ) };

    ghost view = { λ m. m.times.entries };
}

impl Mentions {
    fn new(alloc: Global) -> Mentions
        ensures { (name : List ℕ) → mentions.times_of result name ≡ 0 }
    {
        Mentions {
            times: IndexMap::new(alloc),
        }
    }

    /// How often a name was met. Takes no memory.
    fn times(&self, name: &Name) -> u64
        ensures { result ≡ mentions.times_of self.now name.now }
    {
        match self.times.get(name) {
            Some(times) => *times,
            None => 0,
        }
    }

    fn put(&mut self, name: Name, times: u64) -> Result<(), AllocError>
        ensures { OnOk result ((other : List ℕ) → mentions.times_of self.new other ≡ (if same_name name other then times else mentions.times_of self.old other)) }
    {
        self.times.insert(name, times)?;
        Ok(())
    }

    /// A name is met once more.
    fn add(&mut self, name: &Name) -> Result<(), AllocError>
        ensures { OnOk result ((other : List ℕ) → mentions.times_of self.new other ≡ (if same_name name.now other then told (mentions.times_of self.old other + 1) else mentions.times_of self.old other)) }
    {
        let times = self.times(name);
        self.put(name.clone()?, times.saturating_add(1))
    }
}

/// How often sources are of each class.
#[tactic(auto, using(crate::proofs::Mentions::counts_none, crate::proofs::Mentions::counts_more, crate::proofs::Mentions::counts_all))]
fn count_sources(alloc: Global, sources: &[Source]) -> Result<Mentions, AllocError>
    ensures { IfOk result (λ found. (name : List ℕ) → mentions.times_of found name ≡ told (count_by (mentions.is_source_of name) sources.now)) }
{
    let mut found = Mentions::new(alloc);
    for source in sources {
        found.add(&source.class)?;
    }
    Ok(found)
}

/// How often sources and sinks are of each class.
#[tactic(auto, using(crate::proofs::Mentions::counts_none, crate::proofs::Mentions::counts_more, crate::proofs::Mentions::counts_all))]
fn count_lists(alloc: Global, sources: &[Source], sinks: &[Sink]) -> Result<Mentions, AllocError>
    ensures { IfOk result (λ found. (name : List ℕ) → mentions.times_of found name
        ≡ told (count_by (mentions.is_source_of name) sources.now + count_by (mentions.is_sink_of name) sinks.now)) }
{
    let mut found = count_sources(alloc, sources)?;
    for sink in sinks {
        found.add(&sink.class)?;
    }
    Ok(found)
}

/// The lists, with an index of the classes that they name. Contracts see the lists.
#[derive(Drop)]
pub(crate) struct ListsByClass<'a> {
    config: &'a Config,
    mentions: Mentions,
}

impl<'a> Model for ListsByClass<'a> {
    ghost use Rattle.run_state.specs.declared.config.Config.{Config as Lists};
    ghost use Rattle.size_limits.specs.Mentions.{AreOf};

    ghost Value = { Lists };

    ghost view = { λ l. l.config.now };

    ghost invariant = { λ l. AreOf l.config.now l.mentions };
}

impl<'a> ListsByClass<'a> {
    /// Takes memory in proportion to the lists.
    pub(crate) fn of(alloc: Global, config: &'a Config) -> Result<ListsByClass<'a>, AllocError>
        ensures { IfOk result (λ lists. lists ≡ config.now) }
    {
        let mentions = count_lists(alloc, config.sources.as_slice(), config.sinks.as_slice())?;
        Ok(ListsByClass { config, mentions })
    }

    /// How many sources and sinks are of a class. Takes no memory.
    pub(crate) fn listed(&self, class: &ClassDef) -> u64
        ensures { result ≡ told (listed_letter self.now class.now) }
    {
        self.mentions.times(&class.name)
    }
}
