//! Writing entries.

ghost use Rattle.std.specs.Prelude.{◌≡◌, ◌++◌, ◌∷◌, All, OnOk};
ghost use Rattle.std.specs.List.{flat_map};
ghost use Rattle.class_input.specs.Grammar.{IsBytes};
ghost use Rattle.const_pool.specs.Pool as grammar;

use crate::entry::Entry;
use std::alloc::AllocError;

/// Puts bytes behind others.
fn put_bytes(bytes: &mut Vec<u8>, more: &[u8]) -> Result<(), AllocError>
    ensures spelled { OnOk result (bytes.new.items ≡ bytes.old.items ++ more.now) }
    ensures in_range { IsBytes more.now }
{
    bytes.extend_from_slice(more)?;
    Ok(())
}

/// Puts a tag and what stands behind it behind other bytes.
fn put(bytes: &mut Vec<u8>, tag: u8, body: &[u8]) -> Result<(), AllocError>
    ensures spelled { OnOk result (bytes.new.items ≡ bytes.old.items ++ (tag ∷ body.now)) }
    ensures in_range { IsBytes body.now }
{
    bytes.push(tag)?;
    put_bytes(bytes, body)
}

/// Puts a tag and an index behind other bytes.
fn put_one(bytes: &mut Vec<u8>, tag: u8, index: u16) -> Result<(), AllocError>
    ensures { OnOk result (bytes.new.items ≡ bytes.old.items ++ (tag ∷ grammar.one_index index)) }
{
    put(bytes, tag, &index.to_be_bytes())
}

/// Puts a tag and two indices behind other bytes.
fn put_two(bytes: &mut Vec<u8>, tag: u8, first: u16, second: u16) -> Result<(), AllocError>
    ensures { OnOk result (bytes.new.items ≡ bytes.old.items ++ (tag ∷ grammar.two_indices first second)) }
{
    put(bytes, tag, &first.to_be_bytes())?;
    put_bytes(bytes, &second.to_be_bytes())
}

/// Puts the bytes of an entry behind others.
pub fn put_entry(bytes: &mut Vec<u8>, entry: &Entry) -> Result<(), AllocError>
    requires { grammar.HasText entry.now }
    ensures spelled { OnOk result (bytes.new.items ≡ bytes.old.items ++ grammar.entry_bytes entry.now) }
    ensures in_range { OnOk result (grammar.InRange entry.now) }
{
    match entry {
        Entry::Utf8(text) => {
            put(bytes, 1, &(text.len() as u16).to_be_bytes())?;
            put_bytes(bytes, text.as_slice())
        }
        Entry::Integer(n) => put(bytes, 3, &n.to_be_bytes()),
        Entry::Float(bits) => put(bytes, 4, bits),
        Entry::Long(n) => put(bytes, 5, &n.to_be_bytes()),
        Entry::Double(bits) => put(bytes, 6, bits),
        Entry::Class(name) => put_one(bytes, 7, *name),
        Entry::Text(text) => put_one(bytes, 8, *text),
        Entry::Field(class, member) => put_two(bytes, 9, *class, *member),
        Entry::Method(class, member) => put_two(bytes, 10, *class, *member),
        Entry::InterfaceMethod(class, member) => put_two(bytes, 11, *class, *member),
        Entry::NameAndType(name, ty) => put_two(bytes, 12, *name, *ty),
        Entry::Handle(kind, member) => {
            put(bytes, 15, &kind.to_be_bytes())?;
            put_bytes(bytes, &member.to_be_bytes())
        }
        Entry::MethodType(ty) => put_one(bytes, 16, *ty),
        Entry::Dynamic(bootstrap, member) => put_two(bytes, 18, *bootstrap, *member),
    }
}

/// Puts the bytes of entries behind others.
#[tactic(auto, using(std::proofs::lemmas::List::flat_map_more, std::proofs::lemmas::List::take_more_same))]
pub fn put_entries(bytes: &mut Vec<u8>, entries: &[Entry]) -> Result<(), AllocError>
    requires { All grammar.HasText entries.now }
    ensures spelled { OnOk result (bytes.new.items ≡ bytes.old.items ++ flat_map grammar.entry_bytes entries.now) }
    ensures in_range { OnOk result (All grammar.InRange entries.now) }
{
    for entry in entries {
        put_entry(bytes, entry)?;
    }
    Ok(())
}
