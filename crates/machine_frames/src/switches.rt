//! Switches (JVMS 6.5, tableswitch and lookupswitch).

ghost use Rattle.std.specs.Prelude.{◌≡◌, ◌<◌, ◌-ℤ◌, List, ℕ, ℤ};
ghost use Rattle.class_model.specs.declared.insn.Insn.TheVariants as insn;
ghost use Rattle.run_state.specs.Step as step;
ghost use Rattle.machine_frames.specs.Acts.{Does};

use crate::flow::Flow;
use crate::frame::Frame;
use machine_words::Tag;

/// A tableswitch: the frame goes on at the target of the topmost int, where `targets` begin with that of `low`, or at `default`.
pub fn table_switch<T: Tag>(frame: &mut Frame<T>, low: i32, default: u32, targets: &[u32]) -> Flow
    requires { frame.old.next < usize.MAX }
    ensures { Does T.none_of T.join_of (insn.TableSwitch low default targets.now) frame.old frame.new result }
{
    let Some((v, _)) = frame.stack.int_at(0) else {
        return Flow::Stuck;
    };
    frame.stack.drop_top();
    frame.next = table_target(targets, default, i64::from(v) - i64::from(low)) as usize;
    Flow::Next
}

fn table_target(targets: &[u32], default: u32, above: i64) -> u32
    ensures { result ≡ step.table_target targets.now default above }
{
    if above < 0 {
        return default;
    }
    targets.get(above as usize).copied().unwrap_or(default)
}

/// A lookupswitch: the frame goes on at the target of the first row that has the topmost int, or at `default`.
pub fn lookup_switch<T: Tag>(frame: &mut Frame<T>, default: u32, rows: &[(i32, u32)]) -> Flow
    requires { frame.old.next < usize.MAX }
    ensures { Does T.none_of T.join_of (insn.LookupSwitch default rows.now) frame.old frame.new result }
{
    let Some((v, _)) = frame.stack.int_at(0) else {
        return Flow::Stuck;
    };
    frame.stack.drop_top();
    frame.next = row_target(rows, default, v) as usize;
    Flow::Next
}

fn row_target(rows: &[(i32, u32)], default: u32, v: i32) -> u32
    ensures { result ≡ step.row_target rows.now default v }
{
    for row in rows {
        if row.0 == v {
            return row.1;
        }
    }
    default
}
