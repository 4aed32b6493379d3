//! The check of all methods of a set.

ghost use Rattle.std.specs.Prelude.{◌≡◌, ◌++◌, ◌∷◌, [], OnOk, length, IfOk, IfErr, IfSome};
ghost use Rattle.std.specs.Option.{option_copied};
ghost use Rattle.verifier.specs.declared.sets.Found.TheVariants.{Memory};
ghost use Rattle.verifier.specs.declared.sets.SetVerifyStop.TheVariants as stops;
ghost use Rattle.verifier.specs.Set.{method_in, method_of, IsCheckable, IsCheckableClass, IsCheckableSet};
ghost use Rattle.verifier.specs.WholeSet.{Keeps, Refuses, IsRow, StopsClass, told, AreRows, StopsSet, SetVerifies};
ghost use Rattle.verifier.specs.Stopped.{StopsVerified, IsRefusedFirst};

use crate::methods::check_found;
use crate::typed_code::{TypedCode, VerifyStop};
use class_model::{ClassDef, MethodDef};
use class_set::{ClassId, ClassSet, MethodId};
use lists::Seq;
use std::alloc::{AllocError, AllocFailed, Global};
use std::marker::Model;
use type_rows::VerifyRule;

/// Why the methods of a set have no frames.
#[derive(Clone, Copy, Debug, PartialEq, Eq)]
pub enum Found {
    /// The first method that fails, with its first failure.
    Unverified {
        method: MethodId,
        at: u32,
        rule: VerifyRule,
    },
    Memory,
}

impl From<AllocError> for Found {
    ghost from_gives = { λ _ found. found ≡ Memory };

    fn from(_: AllocError) -> Found {
        Found::Memory
    }
}

impl<T: Drop> From<AllocFailed<T>> for Found {
    ghost from_gives = { λ _ found. found ≡ Memory };

    fn from(_: AllocFailed<T>) -> Found {
        Found::Memory
    }
}

/// Checks a method of a class, if it has code.
fn check_method(
    alloc: Global,
    set: &ClassSet,
    number: u32,
    class: &ClassDef,
    method: &MethodDef,
) -> Result<Option<TypedCode>, VerifyStop>
    requires { IfSome method.now.code IsCheckable }
    ensures ok { IfOk result (λ kept. Keeps (method_in set.now number class.now method.now) kept) }
    ensures err { IfErr result (λ stop. Refuses (method_in set.now number class.now method.now) stop) }
{
    match &method.code {
        None => Ok(None),
        Some(code) => {
            let typed = check_found(alloc, set, number, class, method, code)?;
            Ok(Some(typed))
        }
    }
}

/// A refusal of a method, told for the set.
fn told(number: u32, index: u32, stop: VerifyStop) -> Found
    ensures { result ≡ told number index stop }
{
    match stop {
        VerifyStop::Unverified { at, rule } => {
            let method = MethodId {
                class: number,
                index,
            };
            Found::Unverified { method, at, rule }
        }
        VerifyStop::Memory => Found::Memory,
    }
}

/// Checks the methods of a class in file order.
#[tactic(auto, using(crate::proofs::Kept::row_starts, crate::proofs::Kept::class_stops))]
pub fn check_class(
    alloc: Global,
    set: &ClassSet,
    number: u32,
    class: &ClassDef,
) -> Result<Seq<Option<TypedCode>>, Found>
    requires { IsCheckableClass class.now }
    ensures ok { IfOk result (λ row. IsRow set.now number class.now row (length class.now.methods)) }
    ensures err { IfErr result (λ found. StopsClass set.now number class.now found) }
{
    let mut row = Seq::new(alloc);
    for (index, method) in class.methods.as_slice().iter().enumerate() {
        match check_method(alloc, set, number, class, method) {
            Ok(kept) => row.push(kept)?,
            Err(stop) => return Err(told(number, index as u32, stop)),
        }
    }
    Ok(row)
}

/// One more class.
fn put_row(
    rows: &mut Vec<Seq<Option<TypedCode>>>,
    row: Seq<Option<TypedCode>>,
) -> Result<(), AllocError>
    ensures { OnOk result (rows.new.items ≡ rows.old.items ++ row ∷ []) }
{
    rows.push(row)?;
    Ok(())
}

/// Checks the classes in their order.
#[tactic(auto, using(crate::proofs::Kept::rows_start))]
fn check_classes(alloc: Global, set: &ClassSet) -> Result<Vec<Seq<Option<TypedCode>>>, Found>
    requires { IsCheckableSet set.now }
    ensures ok { IfOk result (λ rows. AreRows set.now rows.items (length set.now)) }
    ensures err { IfErr result (λ found. StopsSet set.now found) }
{
    let mut rows = Vec::new(alloc);
    for number in 0..set.len() {
        let class = set.class(ClassId(number));
        match check_class(alloc, set, number, class) {
            Ok(row) => put_row(&mut rows, row)?,
            Err(found) => return Err(found),
        }
    }
    Ok(rows)
}

/// A set whose methods verify, with the frames of each. Contracts see the list of its classes.
#[derive(Drop)]
pub struct VerifiedSet {
    set: ClassSet,
    rows: Vec<Seq<Option<TypedCode>>>,
}

impl Model for VerifiedSet {
    ghost use Rattle.std.specs.Prelude.{List, length};
    ghost use Rattle.class_model.specs.declared.class.ClassDef.{ClassDef};
    ghost use Rattle.verifier.specs.WholeSet.{AreRows};

    ghost Value = { List ClassDef };

    ghost view = { λ v. v.set };

    ghost invariant = { λ v. AreRows v.set v.rows.items (length v.set) };
}

/// Why a set has no frames.
#[derive(Drop)]
pub enum SetVerifyStop {
    /// The first method that fails, by class and file order, with its first failure. The set is handed back.
    Unverified {
        set: ClassSet,
        method: MethodId,
        at: u32,
        rule: VerifyRule,
    },
    Memory,
}

/// Checks the types of all methods of a set (JVMS 4.10.1): `Ok` with the set where each method with code verifies, else
/// `Unverified` with the first method that does not, by class and file order, with its first instruction that fails and
/// the first rule that fails there.
#[tactic(auto, using(crate::proofs::Whole::rows_verify, crate::proofs::Whole::set_apart, crate::proofs::Whole::one_in_set))]
pub fn verify_set(alloc: Global, set: ClassSet) -> Result<VerifiedSet, SetVerifyStop>
    requires { IsCheckableSet set }
    ensures ok { IfOk result (λ verified. (verified ≡ set) × SetVerifies set) }
    ensures err { IfErr result (λ stop. StopsVerified set stop) }
    ensures passes { SetVerifies set → IfErr result (λ stop. stop ≡ stops.Memory) }
    ensures refused { IsRefusedFirst set result }
{
    match check_classes(alloc, &set) {
        Ok(rows) => Ok(VerifiedSet { set, rows }),
        Err(Found::Unverified { method, at, rule }) => Err(SetVerifyStop::Unverified {
            set,
            method,
            at,
            rule,
        }),
        Err(Found::Memory) => Err(SetVerifyStop::Memory),
    }
}

impl VerifiedSet {
    /// The set, each of whose methods with code verifies. Takes no memory.
    #[tactic(auto, using(crate::proofs::Whole::rows_verify))]
    pub fn set(&self) -> &ClassSet
        ensures same { result.now ≡ self.now }
        ensures verifies { SetVerifies self.now }
    {
        &self.set
    }

    /// The frames of a method, `None` where it has no code or is not there. Takes no memory.
    pub fn typed(&self, method: MethodId) -> Option<&TypedCode>
        ensures { Keeps (method_of self.now method) (option_copied result) }
    {
        let row = self.rows.get(method.class as usize)?;
        row.get(method.index as usize)?.as_ref()
    }
}
