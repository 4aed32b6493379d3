//! Lists of classes, level by level upwards, so that a way up takes no memory and meets no class twice in a level.
//!
//! A ladder of interfaces has more ways up than can be gone, and marks would take memory at each look-up. So the lists
//! are made with the set: what is directly above the classes of a list, each once, is the next list, and equal lists
//! are one. A chain or a ladder, however long, then takes room in proportion to its classes, for all classes below it.

ghost use Rattle.std.specs.Prelude.{◌≡◌, ◌∷◌, ◌≢◌, ◌<◌, [], Some, IfOk, IfSome, IfNone, length, slice_get};
ghost use Rattle.set_lookups.specs.Levels.{list_at, next_at, Adds};

use indexmap::IndexMap;
use lists::Seq;
use std::alloc::{AllocError, Global};
use std::marker::Model;

/// Lists of classes by number, each with the number of the list above it. Contracts see these pairs. A list that
/// several classes come to on their ways up stands once.
#[derive(Drop)]
pub struct Levels {
    nodes: IndexMap<Seq<u32>, usize>,
}

impl Model for Levels {
    ghost use Rattle.std.specs.Prelude.{List};
    ghost use Rattle.set_lookups.specs.Levels.{Node};

    ghost Value = { List Node };

    ghost view = { λ l. l.nodes.entries };
}

impl Levels {
    /// The empty list alone, which ends each way up.
    pub fn new(alloc: Global) -> Result<Levels, AllocError>
        ensures { IfOk result (λ levels. levels ≡ ([], 0) ∷ []) }
    {
        let mut nodes = IndexMap::new(alloc);
        nodes.insert(Seq::new(alloc), 0)?;
        Ok(Levels { nodes })
    }

    /// The list of a number.
    pub fn list(&self, at: usize) -> &[u32]
        ensures { result.now ≡ list_at self.now at }
    {
        match self.nodes.get_index(at) {
            Some((list, _)) => list.as_slice(),
            None => &[],
        }
    }

    /// The number of the list above.
    pub fn next(&self, at: usize) -> usize
        ensures { result ≡ next_at self.now at }
    {
        match self.nodes.get_index(at) {
            Some((_, next)) => *next,
            None => 0,
        }
    }

    /// The number of a list that is there, where it is; the empty one always is.
    pub fn number(&self, list: &Seq<u32>) -> Option<usize>
        requires { slice_get self.now 0 ≡ Some ([], 0) }
        ensures found { IfSome result (λ at. (at < length self.now) × (list_at self.now at ≡ list.now)) }
        ensures absent { IfNone result (list.now ≢ []) }
    {
        if list.is_empty() {
            return Some(0);
        }
        self.nodes.get_index_of(list)
    }

    /// The number of a list, which is put behind the others where it is not there yet.
    pub fn add(&mut self, list: Seq<u32>, next: usize) -> Result<usize, AllocError>
        ensures { IfOk result (λ at. Adds self.old self.new list next at) }
    {
        if let Some(at) = self.nodes.get_index_of(&list) {
            return Ok(at);
        }
        let at = self.nodes.len();
        self.nodes.insert(list, next)?;
        Ok(at)
    }
}
