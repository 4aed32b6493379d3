//! A parser of descriptors (JVMS 4.3).

ghost use Rattle.std.specs.Prelude.{◌≡◌, ◌+◌, ◌^◌, ◌<◌, ◌≤◌, ◌↔◌, IsTrue, length, slice_get};
ghost use Rattle.std.specs.List.{position, position_or_len};
ghost use Rattle.class_model.specs.Reading.{primitive_of, first_primitive, ends_name};

use crate::descriptor::DescStop;
use crate::types::{BaseType, JType, MethodDesc, Primitive};
use lists::{Name, Seq};
use std::alloc::Global;

const SEMICOLON: u16 = 59;

const BRACKET: u16 = 91;

/// The units of a descriptor that are left, and the place of the first of them in the text.
#[derive(Drop)]
pub struct Parser<'a> {
    rest: &'a [u16],
    at: usize,
    ghost in_range: { at + length rest.now < 2 ^ 63 },
}

impl<'a> Parser<'a> {
    ghost use Rattle.std.specs.Prelude.{◌≢◌, ◌∷◌, [], ℕ, List, Ok, drop, MatchResult};
    ghost use Rattle.std.specs.Bool.{OnTrue, OnFalse};
    ghost use Rattle.class_model.specs.Reading.{Dimensions, InName, InField, Opening, BeforeParam, BeforeResult, MethodRead, front, read_field, read_method};
    ghost use Rattle.class_model.specs.Answer.{GoesOn};

    /// A parser at the first unit of a text.
    pub fn new(text: &'a [u16]) -> Parser<'a>
        ensures at { result.at ≡ 0 }
        ensures rest { result.rest.now ≡ text.now }
    {
        Parser { rest: text, at: 0 }
    }

    /// Passes over units that are there.
    fn skip(&mut self, count: usize)
        requires { count ≤ length self.old.rest.now }
        ensures at { self.new.at ≡ self.old.at + count }
        ensures rest { self.new.rest.now ≡ drop count self.old.rest.now }
    {
        self.rest = &self.rest[count..];
        self.at += count;
    }

    /// Passes over a unit if it comes next.
    fn passes(&mut self, unit: u8) -> bool
        ensures yes { OnTrue result ((self.new.at ≡ self.old.at + 1) × (self.old.rest.now ≡ unit ∷ self.new.rest.now)) }
        ensures no { OnFalse result ((self.new.at ≡ self.old.at) × (self.new.rest.now ≡ self.old.rest.now) × ((units : List ℕ) → self.new.rest.now ≢ unit ∷ units)) }
    {
        if self.rest.first() != Some(&u16::from(unit)) {
            return false;
        }
        self.skip(1);
        true
    }

    /// The number of `[`, of which it passes over 255 at most.
    #[tactic(auto, using(crate::proofs::Fields::front_bracket))]
    fn dimensions(&mut self) -> u8
        ensures reads { front (Dimensions 0) self.old.at self.old.rest.now ≡ front (Dimensions result) self.new.at self.new.rest.now }
        ensures all { result < 255 → (units : List ℕ) → self.new.rest.now ≢ 91 ∷ units }
    {
        let mut depth = 0;
        while depth < u8::MAX && self.passes(b'[') {
            depth += 1;
        }
        depth
    }

    /// A class name, with the `;` behind it.
    #[tactic(auto, using(crate::proofs::Names::name_read, crate::proofs::Names::name_refused))]
    fn class_name(&mut self, alloc: Global) -> Result<Name, DescStop>
        ensures { (depth : ℕ) → GoesOn result (front (InName depth []) self.old.at self.old.rest.now) (λ name. Ok (record { depth = depth; base = BaseType.Class name }, record { at = self.new.at; units = self.new.rest.now })) }
    {
        let len = name_len(self.rest);
        if len == 0 || !has_semicolon(self.rest, len) {
            return Err(DescStop::Bad(self.at + len));
        }
        let name = Name::from_units(alloc, &self.rest[..len])?;
        self.skip(len + 1);
        Ok(name)
    }

    /// A letter, or a class name between `L` and `;`.
    #[tactic(auto, using(crate::proofs::Fields::front_class, crate::proofs::Fields::front_primitive, crate::proofs::Fields::front_no_base))]
    fn base_type(&mut self, alloc: Global) -> Result<BaseType, DescStop>
        ensures { (depth : ℕ) → (depth < 255 → (units : List ℕ) → self.old.rest.now ≢ 91 ∷ units) → GoesOn result (front (Dimensions depth) self.old.at self.old.rest.now) (λ base. Ok (record { depth = depth; base = base }, record { at = self.new.at; units = self.new.rest.now })) }
    {
        if self.passes(b'L') {
            return Ok(BaseType::Class(self.class_name(alloc)?));
        }
        let Some(primitive) = first_primitive(self.rest) else {
            return Err(DescStop::Bad(self.at));
        };
        self.skip(1);
        Ok(BaseType::Primitive(primitive))
    }

    fn field_type(&mut self, alloc: Global) -> Result<JType, DescStop>
        ensures { GoesOn result (front (Dimensions 0) self.old.at self.old.rest.now) (λ ty. Ok (ty, record { at = self.new.at; units = self.new.rest.now })) }
    {
        let depth = self.dimensions();
        let base = self.base_type(alloc)?;
        Ok(JType { depth, base })
    }

    /// The parameters, with the `)` behind them.
    #[tactic(auto, using(crate::proofs::Methods::read_params_end, crate::proofs::Methods::param_read, crate::proofs::Methods::param_refused, crate::proofs::Fields::front_shorter))]
    fn params(&mut self, alloc: Global) -> Result<Seq<JType>, DescStop>
        ensures { GoesOn result (read_method (BeforeParam []) self.old.at self.old.rest.now) (λ params. read_method (BeforeResult params) self.new.at self.new.rest.now) }
    {
        let mut params = Seq::new(alloc);
        while !self.passes(b')') {
            params.push(self.field_type(alloc)?)?;
        }
        Ok(params)
    }

    /// The result, `None` for `V`.
    #[tactic(auto, using(crate::proofs::Methods::read_void, crate::proofs::Methods::result_read, crate::proofs::Methods::result_refused))]
    fn result(&mut self, alloc: Global) -> Result<Option<JType>, DescStop>
        ensures { (params : List JType) → GoesOn result (read_method (BeforeResult params) self.old.at self.old.rest.now) (λ ty. read_method (MethodRead (record { params = params; result = ty })) self.new.at self.new.rest.now) }
    {
        if self.passes(b'V') {
            return Ok(None);
        }
        Ok(Some(self.field_type(alloc)?))
    }

    /// Refuses what is left.
    fn end(&self) -> Result<(), DescStop>
        ensures { MatchResult result (λ _. self.now.rest.now ≡ []) (λ stop. (stop ≡ DescStop.Bad self.now.at) × (self.now.rest.now ≢ [])) }
    {
        if self.rest.is_empty() {
            Ok(())
        } else {
            Err(DescStop::Bad(self.at))
        }
    }

    /// A type, with nothing behind it.
    #[tactic(auto, using(crate::proofs::Laws::field_whole, crate::proofs::Laws::field_refused, crate::proofs::Laws::field_longer))]
    pub fn whole_type(&mut self, alloc: Global) -> Result<JType, DescStop>
        ensures { GoesOn result (read_field (InField (Dimensions 0)) self.old.at self.old.rest.now) (λ ty. Ok ty) }
    {
        let ty = self.field_type(alloc)?;
        self.end()?;
        Ok(ty)
    }

    /// A method descriptor, with nothing behind it.
    #[tactic(auto, using(crate::proofs::Methods::read_opening, crate::proofs::Methods::read_no_opening, crate::proofs::Laws::method_whole, crate::proofs::Laws::method_longer))]
    pub fn whole_method(&mut self, alloc: Global) -> Result<MethodDesc, DescStop>
        ensures { GoesOn result (read_method Opening self.old.at self.old.rest.now) (λ desc. Ok desc) }
    {
        if !self.passes(b'(') {
            return Err(DescStop::Bad(self.at));
        }
        let params = self.params(alloc)?;
        let result = self.result(alloc)?;
        self.end()?;
        Ok(MethodDesc { params, result })
    }
}

/// The place of the first `;` or `[`.
fn name_end(units: &[u16]) -> Option<usize>
    ensures { result ≡ position ends_name units.now }
{
    units
        .iter()
        .position(|unit| *unit == SEMICOLON || *unit == BRACKET)
}

/// The number of units in front of the first `;` or `[`.
#[tactic(auto, using(crate::proofs::Names::position_len))]
fn name_len(units: &[u16]) -> usize
    ensures value { result ≡ position_or_len ends_name units.now }
    ensures within { result ≤ length units.now }
{
    name_end(units).unwrap_or(units.len())
}

fn has_semicolon(units: &[u16], at: usize) -> bool
    ensures { IsTrue result ↔ (slice_get units.now at ≡ Some 59) }
{
    units.get(at) == Some(&SEMICOLON)
}

/// The primitive type of a letter.
fn primitive(unit: u16) -> Option<Primitive>
    ensures { result ≡ primitive_of unit }
{
    match u8::try_from(unit).ok()? {
        b'B' => Some(Primitive::Byte),
        b'C' => Some(Primitive::Char),
        b'D' => Some(Primitive::Double),
        b'F' => Some(Primitive::Float),
        b'I' => Some(Primitive::Int),
        b'J' => Some(Primitive::Long),
        b'S' => Some(Primitive::Short),
        b'Z' => Some(Primitive::Boolean),
        _ => None,
    }
}

/// The primitive type of the first unit, if that is a letter of one.
fn first_primitive(units: &[u16]) -> Option<Primitive>
    ensures { result ≡ first_primitive units.now }
{
    primitive(*units.first()?)
}
