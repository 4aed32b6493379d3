//! Attributes (JVMS 4.7).

ghost use Rattle.std.specs.Prelude.{◌≡◌, ◌++◌, ◌<◌, ◌≤◌, ◌^◌, length, OnOk, Ok};
ghost use Rattle.const_pool.specs.Pool.{Pool};
ghost use Rattle.class_spelling.specs.Forms.{attribute_bytes, framed, count_some, count_any};

use lists::Seq;
use pool_names::{put_u16, put_u32};
use std::alloc::AllocError;

/// Puts an attribute behind other bytes: the index of its name, the length of its content, and the content.
#[tactic(auto, unfolding(crate::specs::Forms::framed))]
pub fn put_attribute(out: &mut Vec<u8>, name: u16, content: &[u8]) -> Result<(), AllocError>
    requires { length content.now < 2 ^ 32 }
    ensures put { OnOk result (out.new.items ≡ out.old.items ++ attribute_bytes name content.now) }
    ensures spelled { OnOk result ((pool : Pool) → framed name content.now pool ≡ Ok (pool, attribute_bytes name content.now)) }
{
    put_u16(out, name)?;
    put_u32(out, content.len() as u32)?;
    out.extend_from_slice(content)?;
    Ok(())
}

/// How many attributes stand for what may be absent.
pub fn count_some<T>(found: &Option<T>) -> u16
    ensures count { result ≡ count_some found.now }
    ensures most { result ≤ 1 }
{
    match found {
        None => 0,
        Some(_) => 1,
    }
}

/// How many attributes stand for a list, which has one where it is not empty.
pub fn count_any<T>(items: &Seq<T>) -> u16
    ensures count { result ≡ count_any items.now }
    ensures most { result ≤ 1 }
{
    match items.as_slice() {
        [] => 0,
        [..] => 1,
    }
}
