use crate::*;
use class_model::MethodDesc;
use lists::{Name, Seq};
use std::alloc::{AllocError, Global};
use std::test::Fail;

fn desc(alloc: Global) -> MethodDesc {
    MethodDesc {
        params: Seq::new(alloc),
        result: None,
    }
}

fn lists(alloc: Global) -> Result<Config, AllocError> {
    let source = Source {
        class: Name::from_str(alloc, "T")?,
        name: Name::from_str(alloc, "a")?,
        desc: desc(alloc),
        tag: -1,
    };
    let sink = Sink {
        class: Name::from_str(alloc, "T")?,
        name: Name::from_str(alloc, "b")?,
        desc: desc(alloc),
    };
    Ok(Config {
        sources: Listed::from_seq(Seq::from_vec(vec![in alloc; source]?)),
        sinks: Listed::from_seq(Seq::from_vec(vec![in alloc; sink]?)),
    })
}

#[test]
fn lists_are_copied_as_they_are(rt: HostRuntime) -> Result<(), Fail> {
    let alloc = rt.alloc();
    let config = lists(alloc)?;
    assert_eq!(rt; config.clone()?, config);
    Ok(())
}
