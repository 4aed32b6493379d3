//! The operations on stack words.

ghost use Rattle.std.specs.Prelude.{◌≡◌, [], ◌∷◌, ◌++◌, Ok, OnOk, IfOk, IfErr};
ghost use Rattle.type_rows.specs.Halts.{Halts};
ghost use Rattle.type_rows.specs.Blocks.{one_word, two_words, words, dropped, copied, copied_under, swapped, moved, row_stack};

use crate::method::Checked;
use crate::operands::room;
use crate::rule::{Halt, VerifyRule};
use crate::state::{Operands, TypeState};
use class_model::{StackOp, VType};
use class_set::is_long;
use std::alloc::AllocError;
use std::marker::Model;

/// How many words are moved as one.
#[derive(Clone, Copy, Debug, PartialEq, Eq)]
pub enum Words {
    One,
    Two,
}

/// One operand or two, which contracts see as a list with the topmost first.
#[derive(Drop)]
struct Block {
    top: VType,
    below: Option<VType>,
}

impl Model for Block {
    ghost use Rattle.std.specs.Prelude.{List, ◌∷◌, option_to_list};
    ghost use Rattle.class_model.specs.declared.class.VType.{VType};

    ghost Value = { List VType };

    ghost view = { λ b. b.top ∷ option_to_list b.below };
}

/// Takes an operand of one word.
fn take_one(stack: &mut Operands) -> Result<VType, Halt>
    ensures ok { IfOk result (λ ty. one_word stack.old ≡ Ok (record { block = ty ∷ []; rest = stack.new })) }
    ensures err { IfErr result (λ halt. Halts halt (one_word stack.old)) }
{
    let Some(ty) = stack.pop() else {
        return Err(Halt::Broken(VerifyRule::Operand));
    };
    if is_long(&ty) {
        return Err(Halt::Broken(VerifyRule::Operand));
    }
    Ok(ty)
}

/// Takes a long, or two operands of one word.
#[tactic(auto, using(crate::proofs::Steps::halts_on))]
fn take_two(stack: &mut Operands) -> Result<Block, Halt>
    ensures ok { IfOk result (λ block. two_words stack.old ≡ Ok (record { block = block; rest = stack.new })) }
    ensures err { IfErr result (λ halt. Halts halt (two_words stack.old)) }
{
    let Some(top) = stack.pop() else {
        return Err(Halt::Broken(VerifyRule::Operand));
    };
    if is_long(&top) {
        return Ok(Block { top, below: None });
    }
    let below = take_one(stack)?;
    Ok(Block {
        top,
        below: Some(below),
    })
}

/// Takes so many words.
#[tactic(auto, using(crate::proofs::Steps::halts_on))]
fn take(size: Words, stack: &mut Operands) -> Result<Block, Halt>
    ensures ok { IfOk result (λ block. words size stack.old ≡ Ok (record { block = block; rest = stack.new })) }
    ensures err { IfErr result (λ halt. Halts halt (words size stack.old)) }
{
    match size {
        Words::One => {
            let top = take_one(stack)?;
            Ok(Block { top, below: None })
        }
        Words::Two => take_two(stack),
    }
}

/// Puts a block on top.
fn put(block: Block, stack: &mut Operands) -> Result<(), AllocError>
    ensures { OnOk result (stack.new ≡ block ++ stack.old) }
{
    let Block { top, below } = block;
    if let Some(below) = below {
        stack.push(below)?;
    }
    stack.push(top)
}

/// Puts a copy of a block on top.
fn put_copy(block: &Block, stack: &mut Operands) -> Result<(), AllocError>
    ensures { OnOk result (stack.new ≡ block.now ++ stack.old) }
{
    if let Some(below) = &block.below {
        stack.push(below.clone()?)?;
    }
    stack.push(block.top.clone()?)
}

#[tactic(auto, using(crate::proofs::Steps::halts_on))]
fn drop_words(size: Words, stack: &mut Operands) -> Result<(), Halt>
    ensures ok { OnOk result (dropped size stack.old ≡ Ok stack.new) }
    ensures err { IfErr result (λ halt. Halts halt (dropped size stack.old)) }
{
    let _ = take(size, stack)?;
    Ok(())
}

#[tactic(auto, using(crate::proofs::Steps::halts_on))]
fn copy(size: Words, stack: &mut Operands) -> Result<(), Halt>
    ensures ok { OnOk result (copied size stack.old ≡ Ok stack.new) }
    ensures err { IfErr result (λ halt. Halts halt (copied size stack.old)) }
{
    let top = take(size, stack)?;
    put_copy(&top, stack)?;
    put(top, stack)?;
    Ok(())
}

#[tactic(auto, using(crate::proofs::Steps::halts_on))]
fn copy_under(size: Words, under: Words, stack: &mut Operands) -> Result<(), Halt>
    ensures ok { OnOk result (copied_under size under stack.old ≡ Ok stack.new) }
    ensures err { IfErr result (λ halt. Halts halt (copied_under size under stack.old)) }
{
    let top = take(size, stack)?;
    let below = take(under, stack)?;
    put_copy(&top, stack)?;
    put(below, stack)?;
    put(top, stack)?;
    Ok(())
}

#[tactic(auto, using(crate::proofs::Steps::halts_on))]
fn swap(stack: &mut Operands) -> Result<(), Halt>
    ensures ok { OnOk result (swapped stack.old ≡ Ok stack.new) }
    ensures err { IfErr result (λ halt. Halts halt (swapped stack.old)) }
{
    let top = take_one(stack)?;
    let below = take_one(stack)?;
    stack.push(top)?;
    stack.push(below)?;
    Ok(())
}

/// Moves words, whatever they hold.
fn move_words(op: StackOp, stack: &mut Operands) -> Result<(), Halt>
    ensures ok { OnOk result (moved op stack.old ≡ Ok stack.new) }
    ensures err { IfErr result (λ halt. Halts halt (moved op stack.old)) }
{
    match op {
        StackOp::Pop => drop_words(Words::One, stack),
        StackOp::Pop2 => drop_words(Words::Two, stack),
        StackOp::Dup => copy(Words::One, stack),
        StackOp::DupX1 => copy_under(Words::One, Words::One, stack),
        StackOp::DupX2 => copy_under(Words::One, Words::Two, stack),
        StackOp::Dup2 => copy(Words::Two, stack),
        StackOp::Dup2X1 => copy_under(Words::Two, Words::One, stack),
        StackOp::Dup2X2 => copy_under(Words::Two, Words::Two, stack),
        StackOp::Swap => swap(stack),
    }
}

/// An operation on stack words, if there is room.
#[tactic(auto, using(crate::proofs::Steps::halts_on))]
pub fn stack_op(method: &Checked, op: StackOp, state: &mut TypeState) -> Result<(), Halt>
    ensures ok { OnOk result (row_stack method.now op state.old ≡ Ok state.new) }
    ensures err { IfErr result (λ halt. Halts halt (row_stack method.now op state.old)) }
{
    move_words(op, &mut state.stack)?;
    room(method, state)
}
