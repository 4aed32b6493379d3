//! Straight-line code on ints, typed instruction by instruction.

ghost use Rattle.std.specs.Prelude.{◌≡◌, ◌≢◌, [], ◌∷◌, ◌++◌, None, List, ◌↔◌, IsTrue, IfOk, MatchOption};
ghost use Rattle.class_model.specs.declared.insn.Insn.{Insn};
ghost use Rattle.class_model.specs.declared.insn.Insn.TheVariants.{Load, Store, Bin, Invoke, Return};
ghost use Rattle.first_form.specs.Typing as spec;
ghost use Rattle.first_form.specs.Stepping.{Follows};
ghost use Rattle.first_form.specs.FormOne.{IsStraight};

use crate::frame::{IntFrame, first_frame};
use crate::natives::{Native, native_of};
use class_model::{BinOp, CodeDef, Insn, InvokeKind, Kind, MethodRef, StackOp, VType, Width};
use profile_check::Names;
use std::alloc::{AllocError, Global};

/// What an instruction is judged by besides the frame before it.
#[derive(Clone, Copy)]
struct Rules {
    names: Names,
    max_stack: u16,
}

impl IntFrame {
    /// An int comes on the stack.
    fn push(&mut self, rules: Rules) -> bool
        ensures { Follows result (spec.Pushes rules.max_stack self.old) self.new }
    {
        if self.depth >= rules.max_stack {
            return false;
        }
        self.depth += 1;
        true
    }

    /// So many ints leave the stack.
    fn pop(&mut self, count: u16) -> bool
        ensures { Follows result (spec.Pops count self.old) self.new }
    {
        if self.depth < count {
            return false;
        }
        self.depth -= count;
        true
    }

    /// Whether a local holds an int.
    fn holds_int(&self, slot: u16) -> bool
        ensures { IsTrue result ↔ spec.HoldsInt self.now slot }
    {
        matches!(self.locals.get(slot as usize), Some(VType::Int))
    }

    /// An int comes on the stack from a local.
    fn load_int(&mut self, slot: u16, rules: Rules) -> bool
        ensures { Follows result (spec.LoadsInt rules.max_stack slot self.old) self.new }
    {
        self.holds_int(slot) && self.push(rules)
    }

    /// An int goes from the stack into a local.
    fn store_int(&mut self, slot: u16) -> bool
        ensures { Follows result (spec.StoresInt slot self.old) self.new }
    {
        let slot = slot as usize;
        if slot >= self.locals.len() || self.depth == 0 {
            return false;
        }
        self.locals.set(slot, VType::Int);
        self.depth -= 1;
        true
    }

    /// Two ints leave the stack, and one comes.
    fn join_ints(&mut self) -> bool
        ensures { Follows result (spec.JoinsInts self.old) self.new }
    {
        if self.depth < 2 {
            return false;
        }
        self.depth -= 1;
        true
    }

    /// A native is called.
    fn call(&mut self, native: Native, rules: Rules) -> bool
        ensures { Follows result (spec.Calls rules.names rules.max_stack native self.old) self.new }
    {
        match native {
            Native::Read => self.push(rules),
            Native::Write => self.pop(1),
            Native::Report => rules.names == Names::Written && self.pop(3),
        }
    }

    /// A static method is called.
    fn invoke_static(&mut self, method: &MethodRef, rules: Rules) -> bool
        ensures { Follows result (spec.Invokes rules.names rules.max_stack method.now self.old) self.new }
    {
        match native_of(method) {
            Some(native) => self.call(native, rules),
            None => false,
        }
    }

    fn load(&mut self, kind: Kind, slot: u16, rules: Rules) -> bool
        ensures { Follows result (spec.Types rules.names rules.max_stack (Load kind slot) self.old) self.new }
    {
        match kind {
            Kind::Int => self.load_int(slot, rules),
            Kind::Long | Kind::Ref => false,
        }
    }

    fn store(&mut self, kind: Kind, slot: u16, rules: Rules) -> bool
        ensures { Follows result (spec.Types rules.names rules.max_stack (Store kind slot) self.old) self.new }
    {
        match kind {
            Kind::Int => self.store_int(slot),
            Kind::Long | Kind::Ref => false,
        }
    }

    fn operate(&mut self, width: Width, op: BinOp, rules: Rules) -> bool
        ensures { Follows result (spec.Types rules.names rules.max_stack (Bin width op) self.old) self.new }
    {
        match width {
            Width::Int => is_first_operation(op) && self.join_ints(),
            Width::Long => false,
        }
    }

    fn invoke(&mut self, kind: InvokeKind, method: &MethodRef, rules: Rules) -> bool
        ensures { Follows result (spec.Types rules.names rules.max_stack (Invoke kind method.now) self.old) self.new }
    {
        match kind {
            InvokeKind::Static => self.invoke_static(method, rules),
            _ => false,
        }
    }
}

/// Whether an operation on two ints is of the form.
fn is_first_operation(op: BinOp) -> bool
    ensures { IsTrue result ↔ spec.IsFirstOp op }
{
    matches!(op, BinOp::Add | BinOp::And | BinOp::Or | BinOp::Xor)
}

/// Goes over one instruction, where it is of the form and fits the frame.
fn step(insn: &Insn, rules: Rules, frame: &mut IntFrame) -> bool
    ensures { Follows result (spec.Types rules.names rules.max_stack insn.now frame.old) frame.new }
{
    match insn {
        Insn::PushInt(_) => frame.push(rules),
        Insn::Load(kind, slot) => frame.load(*kind, *slot, rules),
        Insn::Store(kind, slot) => frame.store(*kind, *slot, rules),
        Insn::Stack(StackOp::Pop) => frame.pop(1),
        Insn::Bin(width, op) => frame.operate(*width, *op, rules),
        Insn::Invoke(kind, method) => frame.invoke(*kind, method, rules),
        _ => false,
    }
}

/// Goes over instructions, one after the other.
fn run(body: &[Insn], rules: Rules, frame: &mut IntFrame) -> bool
    ensures { Follows result (spec.Runs rules.names rules.max_stack body.now frame.old) frame.new }
{
    for insn in body {
        if !step(insn, rules, frame) {
            return false;
        }
    }
    true
}

/// The instructions before the last one, where that returns.
fn before_return(insns: &[Insn]) -> Option<&[Insn]>
    ensures { MatchOption result ((body : List Insn) → insns.now ≢ body ++ Return None ∷ []) (λ body. insns.now ≡ body.now ++ Return None ∷ []) }
{
    match insns.split_last() {
        Some((Insn::Return(None), body)) => Some(body),
        _ => None,
    }
}

/// Whether code has neither handlers nor frames nor lines.
fn is_plain(code: &CodeDef) -> bool
    ensures { IsTrue result ↔ ((code.now.handlers ≡ []) × (code.now.frames ≡ []) × (code.now.lines ≡ [])) }
{
    code.handlers.is_empty() && code.frames.is_empty() && code.lines.is_empty()
}

/// Whether code is straight-line code of the form.
pub(crate) fn is_straight(alloc: Global, code: &CodeDef, names: Names) -> Result<bool, AllocError>
    ensures { IfOk result (λ b. IsTrue b ↔ IsStraight names code.now) }
{
    if !is_plain(code) || code.max_locals == 0 {
        return Ok(false);
    }
    match before_return(code.insns.as_slice()) {
        Some(body) => {
            let mut frame = first_frame(alloc, code.max_locals)?;
            let rules = Rules {
                names,
                max_stack: code.max_stack,
            };
            Ok(run(body, rules, &mut frame))
        }
        None => Ok(false),
    }
}
