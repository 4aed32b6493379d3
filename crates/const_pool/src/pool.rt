//! A pool that was read.

ghost use Rattle.std.specs.Prelude.{◌≡◌, ◌<◌, ◌++◌, List, ℕ, length, slice_get, Some, All, IfOk, IfSome};
ghost use Rattle.std.specs.Option.{option_copied};
ghost use Rattle.class_input.specs.Reading.{Answers, Gives, GivesBy, seen};
ghost use Rattle.modified_utf8.specs.Text.{IsText};
ghost use Rattle.const_pool.specs.Pool as grammar;
ghost use Rattle.const_pool.specs.PoolReading as reading;

use crate::decode::{Placed, slots};
use crate::entry::Entry;
use crate::refer;
use class_input::{BadClass, BadKind, Input};
use lists::Bytes;
use std::alloc::Global;
use std::marker::Model;

/// The constant pool of a class file (JVMS 4.4). Contracts see the list of its entries by their indices, from 1
/// on, with `None` for the second index of a Long or a Double.
#[derive(Debug, Drop)]
pub struct Pool {
    slots: Vec<Placed>,
}

impl Model for Pool {
    ghost use Rattle.std.specs.Prelude.{List, Option, All};
    ghost use Rattle.const_pool.specs.declared.entry.Entry.{Entry};
    ghost use Rattle.const_pool.specs.PoolReading.{pool_of, IsPlaced};

    ghost Value = { List (Option Entry) };

    ghost view = { λ p. pool_of p.slots.items };

    ghost invariant = { λ p. All IsPlaced p.slots.items };
}

/// Reads a pool from its count on.
#[tactic(auto, unfolding(crate::specs::PoolReading::pool))]
fn read(alloc: Global, input: &mut Input) -> Result<Vec<Placed>, BadClass>
    ensures gives { GivesBy (λ slots. reading.pool_of slots.items) result input.new (reading.pool (seen input.old)) }
    ensures placed { IfOk result (λ slots. All reading.IsPlaced slots.items) }
{
    let at = input.at;
    let count = input.u16()?;
    if count == 0 {
        return Err(BadClass::Bad {
            place: at,
            kind: BadKind::PoolCount,
        });
    }
    let slots = slots(alloc, count as usize - 1, input)?;
    refer::judge(&slots)?;
    Ok(slots)
}

impl Pool {
    /// Reads the pool that begins where the reader stands, with its count; places are the reader's own. After an
    /// `Ok` the reader stands behind the pool.
    pub fn read(alloc: Global, input: &mut Input) -> Result<Pool, BadClass>
        ensures { Gives result input.new (reading.pool (seen input.old)) }
    {
        Ok(Pool {
            slots: read(alloc, input)?,
        })
    }

    /// Reads the pool that bytes begin with, from its count on, and says how many bytes it takes. `Bad` holds the
    /// first bad place, as an offset in the bytes, and what is wrong there.
    #[tactic(auto, using(crate::proofs::PoolLaws::decoded_begins))]
    pub fn decode(alloc: Global, bytes: &[u8]) -> Result<(Pool, usize), BadClass>
        ensures found { IfOk result (λ read. reading.BeginsWithPool bytes.now read.0 read.1) }
        ensures only { (text rest : List ℕ) (p : grammar.Pool) → grammar.IsPool text p → bytes.now ≡ text ++ rest → Answers (λ read. read) result (Ok (p, length text)) }
        ensures exact { Answers (λ read. read) result (reading.decoded bytes.now) }
    {
        let mut input = Input::new(bytes);
        let pool = Pool::read(alloc, &mut input)?;
        Ok((pool, input.at))
    }

    /// The number of indices, the second ones of Longs and Doubles among them.
    pub fn len(&self) -> usize
        ensures { result ≡ length self.now }
    {
        self.slots.len()
    }

    /// The entry at a place that is there, counted from 0; `None` for the second index of a Long or a Double.
    pub fn slot(&self, at: usize) -> Option<&Entry>
        requires { at < length self.now }
        ensures { slice_get self.now at ≡ Some (option_copied result) }
    {
        self.slots[at].entry.as_ref()
    }

    /// The entry that an index names; `None` for 0, past the end and for the second index of a Long or a Double.
    pub fn get(&self, index: u16) -> Option<&Entry>
        ensures entry { option_copied result ≡ grammar.entry_at self.now index }
        ensures text { IfSome result (λ entry. grammar.HasText entry.now) }
    {
        refer::entry_at(&self.slots, index)
    }

    /// The bytes of the Utf8 entry that an index names, which stands at a place of the file. `PoolIndex` where
    /// it names no entry, `PoolKind` where that is of another kind.
    pub fn text_at(&self, place: usize, index: u16) -> Result<&Bytes, BadClass>
        ensures named { Answers (λ text. text.now) result (reading.named grammar.as_text self.now place index) }
        ensures text { IfOk result (λ text. (units : List ℕ) × IsText text.now units) }
    {
        refer::text_at(&self.slots, place, index)
    }

    /// The bytes of the Utf8 entry that the next index of a reader names, refused at that index.
    #[tactic(auto, unfolding(crate::specs::PoolReading::indexed))]
    pub fn next_text(&self, input: &mut Input) -> Result<&Bytes, BadClass>
        ensures read { GivesBy (λ text. text.now) result input.new (reading.indexed grammar.as_text self.now (seen input.old)) }
        ensures text { IfOk result (λ text. (units : List ℕ) × IsText text.now units) }
    {
        let place = input.at;
        let index = input.u16()?;
        let text = self.text_at(place, index)?;
        Ok(text)
    }

    /// The index of the name of the class that an index names, which stands at a place of the file.
    pub fn class_at(&self, place: usize, index: u16) -> Result<u16, BadClass>
        ensures { Answers (λ name. name) result (reading.named grammar.as_class self.now place index) }
    {
        refer::class_at(&self.slots, place, index)
    }

    /// The indices of the name and the descriptor that an index names, which stands at a place of the file.
    pub fn name_and_type_at(&self, place: usize, index: u16) -> Result<(u16, u16), BadClass>
        ensures { Answers (λ pair. pair) result (reading.named grammar.as_name_and_type self.now place index) }
    {
        refer::name_and_type_at(&self.slots, place, index)
    }
}
