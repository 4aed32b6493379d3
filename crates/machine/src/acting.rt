//! Instructions that concern the top frame and the areas alone.

ghost use Rattle.std.specs.Prelude.{◌≡◌, ◌<◌, OnErr, IfOk};
ghost use Rattle.machine.specs.Acted.{Acts, IsActed, Stays};

use crate::arrays::{array_length, array_load, array_store};
use crate::fields::{get_field, put_field};
use crate::literals::{get_text, push_text};
use crate::making::{new_array, new_object};
use crate::nesting::nest;
use crate::state::Areas;
use crate::statics::{get_static, put_static};
use crate::types::{check_cast, instance_of};
use linked_code::{Op, Program};
use machine_frames::{Flow, Frame, FrameOp, advance, lookup_switch, table_switch};
use machine_words::Tag;
use std::alloc::{AllocError, Global};

/// One instruction of the frame alone. A refusal leaves it as it was.
pub fn act_frame<T: Tag>(
    program: &Program<T>,
    frame: &mut Frame<T>,
    areas: &Areas<T>,
    op: FrameOp,
) -> Result<Flow, AllocError>
    requires { frame.old.next < usize.MAX }
    ensures ok { IfOk result (λ flow. Acts T.none_of T.join_of program.now (Op.Frame op) frame.old areas.now flow frame.new areas.now) }
    ensures kept { IfOk result (λ flow. Stays flow frame.old areas.now frame.new areas.now) }
    ensures err { OnErr result (frame.new ≡ frame.old) }
{
    let flow = advance(frame, op)?;
    Ok(flow)
}

/// A tableswitch.
pub fn act_table<T: Tag>(
    program: &Program<T>,
    frame: &mut Frame<T>,
    areas: &Areas<T>,
    table: u32,
) -> Flow
    requires { frame.old.next < usize.MAX }
    ensures ok { Acts T.none_of T.join_of program.now (Op.TableSwitch table) frame.old areas.now result frame.new areas.now }
    ensures kept { Stays result frame.old areas.now frame.new areas.now }
{
    match program.tables.get(table as usize) {
        Some(table) => table_switch(frame, table.low, table.default, table.targets.as_slice()),
        None => Flow::Stuck,
    }
}

/// A lookupswitch.
pub fn act_rows<T: Tag>(
    program: &Program<T>,
    frame: &mut Frame<T>,
    areas: &Areas<T>,
    rows: u32,
) -> Flow
    requires { frame.old.next < usize.MAX }
    ensures ok { Acts T.none_of T.join_of program.now (Op.LookupSwitch rows) frame.old areas.now result frame.new areas.now }
    ensures kept { Stays result frame.old areas.now frame.new areas.now }
{
    match program.rows.get(rows as usize) {
        Some(rows) => lookup_switch(frame, rows.default, rows.rows.as_slice()),
        None => Flow::Stuck,
    }
}

/// One instruction that concerns the top frame and the areas alone. A refusal leaves both as they were.
pub fn act<T: Tag>(
    alloc: Global,
    program: &Program<T>,
    frame: &mut Frame<T>,
    areas: &mut Areas<T>,
    op: Op,
) -> Result<Flow, AllocError>
    requires room { frame.old.next < usize.MAX }
    requires family { IsActed op }
    ensures ok { IfOk result (λ flow. Acts T.none_of T.join_of program.now op frame.old areas.old flow frame.new areas.new) }
    ensures kept { IfOk result (λ flow. Stays flow frame.old areas.old frame.new areas.new) }
    ensures err { OnErr result ((frame.new ≡ frame.old) × (areas.new ≡ areas.old)) }
{
    match op {
        Op::Frame(op) => act_frame(program, frame, areas, op),
        Op::TableSwitch(table) => Ok(act_table(program, frame, areas, table)),
        Op::LookupSwitch(rows) => Ok(act_rows(program, frame, areas, rows)),
        Op::GetField(place) => get_field(program, frame, areas, place),
        Op::PutField(place, kind, keeps) => Ok(put_field(
            program, frame, areas, place, kind, keeps,
        )),
        Op::GetStatic(class, place) => get_static(frame, areas, class, place),
        Op::PutStatic(class, place, kind, keeps) => Ok(put_static(
            frame, areas, class, place, kind, keeps,
        )),
        Op::PushText(text) => push_text(alloc, program, frame, areas, text),
        Op::GetText(class, text) => get_text(alloc, program, frame, areas, class, text),
        Op::MultiNewArray(ty, sizes) => nest(alloc, program, frame, areas, ty, sizes),
        Op::New(class) => new_object(alloc, program, frame, areas, class),
        Op::NewArray(ty) => new_array(alloc, program, frame, areas, ty),
        Op::ArrayLength => array_length(frame, areas),
        Op::ArrayLoad(element) => Ok(array_load(frame, areas, element)),
        Op::ArrayStore(element) => Ok(array_store(program, frame, areas, element)),
        Op::CheckCast(ty) => Ok(check_cast(program, frame, areas, ty)),
        Op::InstanceOf(ty) => Ok(instance_of(program, frame, areas, ty)),
        _ => unreachable!(),
    }
}
