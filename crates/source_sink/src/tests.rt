//! Lists that are read, and lists of a form that is not built.

use crate::{ConfigFault, read_config};
use std::alloc::Global;
use std::process::Abort;
use std::test::Fail;

const READ: &str =
    "{\"class\":\"sys/Native\",\"name\":\"read\",\"descriptor\":\"()I\",\"tag\":-32768}";

/// Sees that lists with these sources are read, with `write` as a sink, and the tag of `read` then.
fn check(rt: &impl Abort, alloc: Global, sources: &str, tag: Option<i32>) -> Result<(), Fail> {
    let text = format!(in alloc;
        "{{\"sources\":[],\"sources\":[{sources}],\"sinks\":[{{\"class\":\"sys/Native\",\"name\":\"write\",\"descriptor\":\"(I)V\"}}]}}"
    )?;
    let config = read_config(alloc, text.as_bytes())?;
    assert_eq!(rt;
        config.sources.as_slice().first().map(|source| source.tag),
        tag
    );
    assert_eq!(rt; config.sinks.len(), 1);
    Ok(())
}

#[test]
fn lists_that_are_built(rt: HostRuntime) -> Result<(), Fail> {
    let alloc = rt.alloc();
    check(&rt, alloc, "", None)?;
    check(&rt, alloc, READ, Some(-32_768))
}

#[test]
fn lists_that_are_not_built(rt: HostRuntime) -> Result<(), Fail> {
    let alloc = rt.alloc();
    for text in [
        "[",
        "[]",
        "{\"sources\":[]}",
        "{\"sources\":[],\"sinks\":[],\"more\":1}",
        "{\"sources\":[],\"sinks\":[0]}",
    ] {
        let read = read_config(alloc, text.as_bytes());
        assert!(rt; matches!(read, Err(ConfigFault::NotBuilt)), "{text}");
    }
    Ok(())
}
