//! Reading the lists.

ghost use Rattle.std.specs.Prelude.{◌≡◌, ◌↔◌, ℤ, List, MatchOption, IfOk, IfErr, IsErrOf, IsTrue, Some};
ghost use Rattle.serde_json.specs.Data.{Data};
ghost use Rattle.serde_json.specs.View.{view, items_view};
ghost use Rattle.first_form.specs.FirstSet.{IsFirstConfig};
ghost use Rattle.run_state.specs.declared.config.Source.{Source as ASource};
ghost use Rattle.run_state.specs.declared.config.Sink.{Sink as ASink};
ghost use Rattle.run_state.specs.declared.config.Config.{Config as AConfig};
ghost use Rattle.source_sink.specs.Reads.{IsJson, members_in, list_at, text_at, NamesNative, IsSource, IsSink, AreSources, AreSinks, IsConfig, Reads};

use crate::fault::ConfigFault;
use crate::natives::{read_source, write_sink};
use lists::Seq;
use run_state::{Config, Listed, Sink, Source};
use serde_json::Value;
use serde_json::error::Category;
use std::alloc::Global;
use std::str;

/// The value that the bytes are the JSON text of.
fn json(alloc: Global, bytes: &[u8]) -> Result<Value, ConfigFault>
    ensures ok { IfOk result (λ value. IsJson bytes.now (view value)) }
    ensures not_built { IsErrOf result ConfigFault.NotBuilt → (d : Data) → IsJson bytes.now d → ⊥ }
{
    let Ok(text) = str::from_utf8(bytes) else {
        return Err(ConfigFault::NotBuilt);
    };
    match Value::from_str(alloc, text) {
        Ok(value) => Ok(value),
        Err(error) if error.classify() == Category::Memory => Err(ConfigFault::Memory),
        Err(_) => Err(ConfigFault::NotBuilt),
    }
}

/// Whether a value is an object of so many members.
fn has_members(value: &Value, count: usize) -> bool
    ensures { IsTrue result ↔ (members_in (view value.now) ≡ Some count) }
{
    match value.as_object() {
        Some(members) => members.len() == count,
        None => false,
    }
}

/// Whether a value has this text at a name.
fn has_text(value: &Value, name: &str, text: &str) -> bool
    ensures { IsTrue result ↔ (text_at name.now (view value.now) ≡ Some text.now) }
{
    match value.get(name).and_then(Value::as_str) {
        Some(found) => found == text,
        None => false,
    }
}

/// Whether an entry names this method of `sys/Native`, with so many members in all.
fn names_native(entry: &Value, members: usize, name: &str, descriptor: &str) -> bool
    ensures { IsTrue result ↔ NamesNative (view entry.now) members name.now descriptor.now }
{
    has_members(entry, members)
        && has_text(entry, "class", "sys/Native")
        && has_text(entry, "name", name)
        && has_text(entry, "descriptor", descriptor)
}

/// The tag of an entry of the list of sources.
fn source_tag(entry: &Value) -> Option<i32>
    ensures { MatchOption result ((tag : ℤ) → IsSource (view entry.now) tag → ⊥) (IsSource (view entry.now)) }
{
    if !names_native(entry, 4, "read", "()I") {
        return None;
    }
    let tag = entry.get("tag").and_then(Value::as_i64)?;
    if (-32_768..=32_767).contains(&tag) {
        Some(tag as i32)
    } else {
        None
    }
}

/// The list of sources, of which at most one is built.
fn sources(alloc: Global, list: &[Value]) -> Result<Listed<Source>, ConfigFault>
    ensures ok { IfOk result (AreSources (items_view list.now)) }
    ensures not_built { IsErrOf result ConfigFault.NotBuilt → (sources : List ASource) → AreSources (items_view list.now) sources → ⊥ }
{
    match list {
        [] => Ok(Listed::new(alloc)),
        [entry] => {
            let tag = source_tag(entry).ok_or(ConfigFault::NotBuilt)?;
            let mut sources = Seq::new(alloc);
            sources.push(read_source(alloc, tag)?)?;
            Ok(Listed::from_seq(sources))
        }
        _ => Err(ConfigFault::NotBuilt),
    }
}

/// The list of sinks, of which at most one is built.
fn sinks(alloc: Global, list: &[Value]) -> Result<Listed<Sink>, ConfigFault>
    ensures ok { IfOk result (AreSinks (items_view list.now)) }
    ensures not_built { IsErrOf result ConfigFault.NotBuilt → (sinks : List ASink) → AreSinks (items_view list.now) sinks → ⊥ }
{
    match list {
        [] => Ok(Listed::new(alloc)),
        [entry] => {
            if !names_native(entry, 3, "write", "(I)V") {
                return Err(ConfigFault::NotBuilt);
            }
            let mut sinks = Seq::new(alloc);
            sinks.push(write_sink(alloc)?)?;
            Ok(Listed::from_seq(sinks))
        }
        _ => Err(ConfigFault::NotBuilt),
    }
}

/// The list at a name.
fn list_of<'a>(value: &'a Value, name: &str) -> Result<&'a [Value], ConfigFault>
    ensures ok { IfOk result (λ list. list_at name.now (view value.now) ≡ Some (items_view list.now)) }
    ensures err { IfErr result (λ fault. list_at name.now (view value.now) ≡ None) }
{
    match value.get(name).and_then(Value::as_array) {
        Some(list) => Ok(list.as_slice()),
        None => Err(ConfigFault::NotBuilt),
    }
}

/// The configuration of a value.
fn config_of(alloc: Global, value: &Value) -> Result<Config, ConfigFault>
    ensures ok { IfOk result (IsConfig (view value.now)) }
    ensures not_built { IsErrOf result ConfigFault.NotBuilt → (config : AConfig) → IsConfig (view value.now) config → ⊥ }
{
    if !has_members(value, 2) {
        return Err(ConfigFault::NotBuilt);
    }
    Ok(Config {
        sources: sources(alloc, list_of(value, "sources")?)?,
        sinks: sinks(alloc, list_of(value, "sinks")?)?,
    })
}

/// Reads the lists: one JSON object with exactly the members `sources` and `sinks`, both lists. Of
/// members of one name in one object the last alone counts. So far `sources` has at most one entry,
/// which has exactly `class`, `name` and `descriptor`, those of `sys/Native.read()I`, and `tag`, a
/// whole number from -32,768 to 32,767; `sinks` has at most one, which has exactly the first three,
/// those of `sys/Native.write(I)V`. This project's own rules.
///
/// Refuses with `NotBuilt` exactly where the bytes are no such lists, or with `Memory`.
pub fn read_config(alloc: Global, bytes: &[u8]) -> Result<Config, ConfigFault>
    ensures read { IfOk result (Reads bytes.now) }
    ensures first { IfOk result IsFirstConfig }
    ensures not_built { IsErrOf result ConfigFault.NotBuilt → (config : AConfig) → Reads bytes.now config → ⊥ }
{
    config_of(alloc, &json(alloc, bytes)?)
}
