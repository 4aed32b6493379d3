//! A constant pool with what its texts spell, so that no text is read twice.

ghost use Rattle.std.specs.Prelude.{◌≡◌, ◌<◌, List, ℕ, Option, Some, None, Err, IfOk, length, slice_get};
ghost use Rattle.std.specs.Option.{option_copied};
ghost use Rattle.class_input.specs.Reading.{Answers, Gives, GivesBy, seen};
ghost use Rattle.class_model.specs.Reading.{field_of, method_of};
ghost use Rattle.modified_utf8.specs.Text.{IsText};
ghost use Rattle.const_pool.specs.declared.entry.Entry.{Entry as EntryValue};
ghost use Rattle.const_pool.specs.Pool as grammar;
ghost use Rattle.const_pool.specs.PoolReading as pool_reading;
ghost use Rattle.class_names.specs.NameReading as reading;
ghost use Rattle.class_names.specs.Spelled.{spelled, spelled_entry, AreSpelled, IsSpelled};

use class_input::{BadClass, BadKind, Input};
use class_model::{DescStop, JType, MethodDesc, parse_desc, parse_type};
use const_pool::{Entry, Pool, TextStop, text_units};
use lists::{Bytes, Name};
use std::alloc::{AllocError, Global};
use std::marker::Model;

/// What the text of a Utf8 entry spells: itself as a name, and as a descriptor, where it is one, its types.
#[derive(Debug, Drop)]
pub struct Spelled {
    pub name: Name,
    pub field: Option<JType>,
    pub method: Option<MethodDesc>,
}

/// The constant pool of a class file (JVMS 4.4) with what its texts spell. Contracts see the list of its entries, as
/// they see a `Pool`.
#[derive(Debug, Drop)]
pub struct NamedPool {
    entries: Pool,
    /// For each entry what its text spells, `None` where it is no text.
    texts: Vec<Option<Spelled>>,
}

impl Model for NamedPool {
    ghost use Rattle.std.specs.Prelude.{List, Option};
    ghost use Rattle.const_pool.specs.declared.entry.Entry.{Entry};
    ghost use Rattle.class_names.specs.Spelled.{AreSpelled};

    ghost Value = { List (Option Entry) };

    ghost view = { λ p. p.entries };

    ghost invariant = { λ p. AreSpelled p.entries p.texts.items };
}

/// The type that a text spells, if any.
fn field_in(alloc: Global, text: &[u16]) -> Result<Option<JType>, AllocError>
    ensures { IfOk result (λ ty. ty ≡ field_of text.now) }
{
    match parse_type(alloc, text) {
        Ok(ty) => Ok(Some(ty)),
        Err(DescStop::Bad(_)) => Ok(None),
        Err(DescStop::Memory) => Err(AllocError),
    }
}

/// The method descriptor that a text spells, if any.
fn method_in(alloc: Global, text: &[u16]) -> Result<Option<MethodDesc>, AllocError>
    ensures { IfOk result (λ desc. desc ≡ method_of text.now) }
{
    match parse_desc(alloc, text) {
        Ok(desc) => Ok(Some(desc)),
        Err(DescStop::Bad(_)) => Ok(None),
        Err(DescStop::Memory) => Err(AllocError),
    }
}

/// The units that bytes spell, if any.
#[tactic(auto, unfolding(crate::specs::NameReading::units_in))]
fn units_in(alloc: Global, bytes: &[u8]) -> Result<Option<Name>, AllocError>
    ensures { IfOk result (λ name. name ≡ reading.units_in bytes.now) }
{
    match text_units(alloc, bytes) {
        Ok(units) => Ok(Some(Name::from_vec(alloc, units.into_vec())?)),
        Err(TextStop::Bad(_)) => Ok(None),
        Err(TextStop::Memory) => Err(AllocError),
    }
}

/// What a name spells.
fn spell_name(alloc: Global, name: Name) -> Result<Spelled, AllocError>
    ensures { IfOk result (λ text. text ≡ spelled name) }
{
    let field = field_in(alloc, name.as_units())?;
    let method = method_in(alloc, name.as_units())?;
    Ok(Spelled {
        name,
        field,
        method,
    })
}

/// What stands beside an entry.
fn spell_entry(alloc: Global, entry: &Entry) -> Result<Option<Spelled>, AllocError>
    ensures { IfOk result (λ text. text ≡ spelled_entry (Some entry.now)) }
{
    let Entry::Utf8(bytes) = entry else {
        return Ok(None);
    };
    match units_in(alloc, bytes.as_slice())? {
        Some(name) => Ok(Some(spell_name(alloc, name)?)),
        None => Ok(None),
    }
}

/// What stands beside the entry at a place that is there, counted from 0.
fn spell_slot(alloc: Global, entries: &Pool, at: usize) -> Result<Option<Spelled>, AllocError>
    requires { at < length entries.now }
    ensures { IfOk result (λ text. (entry : Option EntryValue) → slice_get entries.now at ≡ Some entry → text ≡ spelled_entry entry) }
{
    match entries.slot(at) {
        Some(entry) => spell_entry(alloc, entry),
        None => Ok(None),
    }
}

/// What stands beside each entry of a pool.
#[tactic(auto, using(crate::proofs::SpelledLaws::one_more))]
fn spell_entries(alloc: Global, entries: &Pool) -> Result<Vec<Option<Spelled>>, AllocError>
    ensures { IfOk result (λ texts. AreSpelled entries.now texts.items) }
{
    let mut texts = Vec::with_capacity(alloc, entries.len())?;
    for at in 0..entries.len() {
        let text = spell_slot(alloc, entries, at)?;
        texts.push(text)?;
    }
    Ok(texts)
}

impl NamedPool {
    /// Reads the pool that begins where the reader stands, with its count; places are the reader's own. After an
    /// `Ok` the reader stands behind the pool.
    pub fn read(alloc: Global, input: &mut Input) -> Result<NamedPool, BadClass>
        ensures { Gives result input.new (pool_reading.pool (seen input.old)) }
    {
        let entries = Pool::read(alloc, input)?;
        let texts = spell_entries(alloc, &entries)?;
        Ok(NamedPool { entries, texts })
    }

    /// The entry that an index names; `None` for 0, past the end and for the second index of a Long or a Double.
    pub fn get(&self, index: u16) -> Option<&Entry>
        ensures { option_copied result ≡ grammar.entry_at self.now index }
    {
        self.entries.get(index)
    }

    /// What the text of the Utf8 entry spells that an index names, if it does.
    #[tactic(auto, using(crate::proofs::SpelledLaws::beside, crate::proofs::SpelledLaws::nothing_beside, crate::proofs::SpelledLaws::nothing_at_0))]
    fn spelled(&self, index: u16) -> Option<&Spelled>
        ensures { option_copied result ≡ spelled_entry (grammar.entry_at self.now index) }
    {
        if index == 0 {
            return None;
        }
        match self.texts.get(usize::from(index) - 1) {
            Some(text) => text.as_ref(),
            None => None,
        }
    }

    /// The refusal of an index, which stands at a place, of no text.
    #[tactic(auto, using(crate::proofs::SpelledLaws::not_spelled, crate::proofs::SpelledLaws::refused_text))]
    fn refusal(&self, place: usize, index: u16) -> BadClass
        requires { spelled_entry (grammar.entry_at self.now index) ≡ None }
        ensures { Answers (λ (name : List ℕ). name) (Err result) (reading.text_at self.now place index) }
    {
        match self.entries.text_at(place, index) {
            Ok(_) => BadClass::Bad {
                place,
                kind: BadKind::Text,
            },
            Err(bad) => bad,
        }
    }

    /// What the text of the Utf8 entry spells that an index names, which stands at a place (JVMS 4.4.7). `PoolIndex`
    /// where it names no entry, `PoolKind` where that is of another kind.
    #[tactic(auto, using(crate::proofs::SpelledLaws::is_spelled, crate::proofs::SpelledLaws::spelled_text))]
    pub fn text_at(&self, place: usize, index: u16) -> Result<&Spelled, BadClass>
        ensures name { Answers (λ text. text.now.name) result (reading.text_at self.now place index) }
        ensures types { IfOk result (λ text. IsSpelled text.now) }
    {
        match self.spelled(index) {
            Some(text) => Ok(text),
            None => Err(self.refusal(place, index)),
        }
    }

    /// The bytes of the Utf8 entry that an index names, which stands at a place.
    pub fn bytes_at(&self, place: usize, index: u16) -> Result<&Bytes, BadClass>
        ensures { Answers (λ text. text.now) result (reading.bytes_at self.now place index) }
    {
        self.entries.text_at(place, index)
    }

    /// The bytes of the Utf8 entry that the next index of a reader names, refused at that index.
    pub fn next_text(&self, input: &mut Input) -> Result<&Bytes, BadClass>
        ensures read { GivesBy (λ text. text.now) result input.new (pool_reading.indexed grammar.as_text self.now (seen input.old)) }
        ensures text { IfOk result (λ text. (units : List ℕ) × IsText text.now units) }
    {
        self.entries.next_text(input)
    }

    /// The index of the name of the class that an index names, which stands at a place of the file.
    pub fn class_at(&self, place: usize, index: u16) -> Result<u16, BadClass>
        ensures { Answers (λ name. name) result (pool_reading.named grammar.as_class self.now place index) }
    {
        self.entries.class_at(place, index)
    }

    /// The indices of the name and the descriptor that an index names, which stands at a place of the file.
    pub fn name_and_type_at(&self, place: usize, index: u16) -> Result<(u16, u16), BadClass>
        ensures { Answers (λ pair. pair) result (pool_reading.named grammar.as_name_and_type self.now place index) }
    {
        self.entries.name_and_type_at(place, index)
    }
}
