//! The index of what an instruction names.

ghost use Rattle.pool_names.specs.Adding.{Puts};
ghost use Rattle.insn_spelling.specs.Conditions.{FitsTexts};
ghost use Rattle.insn_spelling.specs.Families.{IsPush};
ghost use Rattle.insn_spelling.specs.Spelling.{index_of};

use class_model::Insn;
use const_pool::PoolStop;
use pool_names::{
    PoolWriter, put_class, put_field, put_int, put_long, put_method, put_string, put_type,
};
use std::alloc::Global;

/// The index of a number that `sipush` does not push, else 0.
#[tactic(auto, unfolding(crate::specs::Spelling::index_of))]
fn put_pushed(alloc: Global, pool: &mut PoolWriter, insn: &Insn) -> Result<u16, PoolStop>
    requires pushes { IsPush insn.now }
    requires texts { FitsTexts insn.now }
    ensures { Puts result pool.new (index_of insn.now pool.old) }
{
    match insn {
        Insn::PushInt(n) if -32768 <= *n && *n <= 32767 => Ok(0),
        Insn::PushInt(n) => put_int(pool, *n),
        Insn::PushLong(n) if 0 <= *n && *n <= 1 => Ok(0),
        Insn::PushLong(n) => put_long(pool, *n),
        Insn::PushString(units) => put_string(alloc, pool, units.as_slice()),
        _ => unreachable!(),
    }
}

/// The index of what an instruction names, put into the pool; 0 where it is written without one.
#[tactic(auto, unfolding(crate::specs::Spelling::index_of))]
pub(crate) fn put_index(alloc: Global, pool: &mut PoolWriter, insn: &Insn) -> Result<u16, PoolStop>
    requires { FitsTexts insn.now }
    ensures { Puts result pool.new (index_of insn.now pool.old) }
{
    match insn {
        Insn::PushInt(_) | Insn::PushLong(_) | Insn::PushString(_) => put_pushed(alloc, pool, insn),
        Insn::GetStatic(field)
        | Insn::PutStatic(field)
        | Insn::GetField(field)
        | Insn::PutField(field) => put_field(alloc, pool, field),
        Insn::Invoke(_, method) => put_method(alloc, pool, method),
        Insn::New(class) => put_class(alloc, pool, class),
        Insn::ANewArray(ty)
        | Insn::CheckCast(ty)
        | Insn::InstanceOf(ty)
        | Insn::MultiNewArray(ty, _) => put_type(alloc, pool, ty),
        _ => Ok(0),
    }
}
