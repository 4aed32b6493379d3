//! Text constants (JVMS 5.1, 6.5 ldc of a String), and static fields that hold one.

ghost use Rattle.std.specs.Prelude.{◌≡◌, ◌<◌, [], ◌∷◌, ◌++◌, None, length, OnOk, OnErr, IfOk};
ghost use Rattle.machine.specs.Acted.{Acts, Stays};
ghost use Rattle.machine.specs.Placed.{Gives, characters, placed_by, with_literal_of};

use crate::faults::copied;
use crate::state::{Areas, Literal};
use linked_code::{Op, Program};
use lists::Seq;
use machine_frames::{Flow, Frame};
use machine_heap::Item;
use machine_words::{Tag, Word};
use std::alloc::{AllocError, Global};

/// The place of the literal of a text, where it was made.
fn placed(literals: &[Literal], text: u32) -> Option<u64>
    ensures { result ≡ placed_by literals.now text }
{
    for literal in literals {
        if literal.text == text {
            return Some(literal.place);
        }
    }
    None
}

/// The characters of a text, as elements.
fn elements<T: Tag>(alloc: Global, units: &[u16]) -> Result<Seq<Word<T>>, AllocError>
    ensures { IfOk result (λ cells. cells ≡ characters T.none_of units.now) }
{
    let mut cells = Vec::with_capacity(alloc, units.len())?;
    for unit in units {
        cells.push(Word::num(i32::from(*unit), T::none()))?;
    }
    Ok(Seq::from_vec(cells))
}

/// Makes the array of a text's characters and the literal, and pushes that. A refusal leaves frame and areas as they were.
fn make_literal<T: Tag>(
    alloc: Global,
    program: &Program<T>,
    frame: &mut Frame<T>,
    areas: &mut Areas<T>,
    text: u32,
) -> Result<Flow, AllocError>
    requires room { frame.old.next < usize.MAX }
    requires fresh { placed_by areas.old.literals text ≡ None }
    ensures ok { IfOk result (λ flow. Gives T.none_of T.join_of program.now text frame.old areas.old flow frame.new areas.new) }
    ensures kept { IfOk result (λ flow. Stays flow frame.old areas.old frame.new areas.new) }
    ensures err { OnErr result ((frame.new ≡ frame.old) × (areas.new ≡ areas.old)) }
{
    let Some(value) = program.value else {
        return Ok(Flow::Stuck);
    };
    let Some(units) = program.texts.get(text as usize) else {
        return Ok(Flow::Stuck);
    };
    let class = program.class(program.string);
    let before = areas.heap.len();
    let array = Item {
        ty: program.chars,
        own: T::none(),
        cells: elements(alloc, units.as_slice())?,
    };
    let mut object = Item {
        ty: class.ty,
        own: T::none(),
        cells: copied(alloc, class.fresh.as_slice())?,
    };
    object.set_cell(value as usize, Word::reference(before));
    frame.stack.push(Word::null())?;
    let added = add_literal(areas, array, object, text);
    let Ok(place) = added else {
        frame.stack.drop_top();
        return Err(AllocError);
    };
    frame.stack.replace(1, Word::reference(place));
    frame.next += 1;
    Ok(Flow::Next)
}

/// Adds the array of a text and its literal to the areas. A refusal leaves them as they were.
fn add_literal<T: Tag>(
    areas: &mut Areas<T>,
    array: Item<T>,
    object: Item<T>,
    text: u32,
) -> Result<u64, AllocError>
    ensures ok { IfOk result (λ place. (place ≡ length (areas.old.heap ++ array ∷ [])) × (areas.new ≡ with_literal_of areas.old array object text)) }
    ensures err { OnErr result (areas.new ≡ areas.old) }
{
    let before = areas.heap.len();
    areas.heap.add(array)?;
    match add_object(areas, object, text) {
        Ok(place) => Ok(place),
        Err(refused) => {
            areas.heap.shorten(before);
            Err(refused)
        }
    }
}

fn add_object<T: Tag>(areas: &mut Areas<T>, object: Item<T>, text: u32) -> Result<u64, AllocError>
    ensures ok { IfOk result (λ place. (place ≡ length areas.old.heap) × (areas.new ≡ record areas.old { heap = areas.old.heap ++ object ∷ []; literals = areas.old.literals ++ record { text = text; place = length areas.old.heap } ∷ [] })) }
    ensures err { OnErr result (areas.new ≡ areas.old) }
{
    let place = areas.heap.len();
    areas.heap.add(object)?;
    if let Err(refused) = areas.literals.push(Literal { text, place }) {
        areas.heap.shorten(place);
        return Err(refused);
    }
    Ok(place)
}

/// Pushes the literal of a text, which is made at its first use. A refusal leaves frame and areas as they were.
fn give_text<T: Tag>(
    alloc: Global,
    program: &Program<T>,
    frame: &mut Frame<T>,
    areas: &mut Areas<T>,
    text: u32,
) -> Result<Flow, AllocError>
    requires { frame.old.next < usize.MAX }
    ensures ok { IfOk result (λ flow. Gives T.none_of T.join_of program.now text frame.old areas.old flow frame.new areas.new) }
    ensures kept { IfOk result (λ flow. Stays flow frame.old areas.old frame.new areas.new) }
    ensures err { OnErr result ((frame.new ≡ frame.old) × (areas.new ≡ areas.old)) }
{
    let Some(place) = placed(areas.literals.as_slice(), text) else {
        return make_literal(alloc, program, frame, areas, text);
    };
    frame.stack.push(Word::reference(place))?;
    frame.next += 1;
    Ok(Flow::Next)
}

/// Pushes the literal of a text. A refusal leaves frame and areas as they were.
pub fn push_text<T: Tag>(
    alloc: Global,
    program: &Program<T>,
    frame: &mut Frame<T>,
    areas: &mut Areas<T>,
    text: u32,
) -> Result<Flow, AllocError>
    requires { frame.old.next < usize.MAX }
    ensures ok { IfOk result (λ flow. Acts T.none_of T.join_of program.now (Op.PushText text) frame.old areas.old flow frame.new areas.new) }
    ensures kept { IfOk result (λ flow. Stays flow frame.old areas.old frame.new areas.new) }
    ensures err { OnErr result ((frame.new ≡ frame.old) × (areas.new ≡ areas.old)) }
{
    give_text(alloc, program, frame, areas, text)
}

/// The same for a static field with a constant text, once its class has begun.
pub fn get_text<T: Tag>(
    alloc: Global,
    program: &Program<T>,
    frame: &mut Frame<T>,
    areas: &mut Areas<T>,
    class: u32,
    text: u32,
) -> Result<Flow, AllocError>
    requires { frame.old.next < usize.MAX }
    ensures ok { IfOk result (λ flow. Acts T.none_of T.join_of program.now (Op.GetText class text) frame.old areas.old flow frame.new areas.new) }
    ensures kept { IfOk result (λ flow. Stays flow frame.old areas.old frame.new areas.new) }
    ensures err { OnErr result ((frame.new ≡ frame.old) × (areas.new ≡ areas.old)) }
{
    give_text(alloc, program, frame, areas, text)
}
