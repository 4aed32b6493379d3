use super::*;
use class_input::{BadKind, Input};
use lists::Seq;
use std::test::Fail;

// One entry of each tag of JVMS 4.4, in the order of tags. A Long at 4 and a Double at 6 take two indices each.
const EACH_TAG: [u8; 74] = [
    0, 17, // the count
    1, 0, 1, 65, // 1: "A"
    3, 255, 255, 255, 254, // 2: -2
    4, 63, 128, 0, 0, // 3: the bytes of 1.0f
    5, 255, 255, 255, 255, 255, 255, 255, 253, // 4: -3
    6, 63, 240, 0, 0, 0, 0, 0, 0, // 6: the bytes of 1.0
    7, 0, 1, // 8: a class
    8, 0, 1, // 9: a String
    9, 0, 8, 0, 13, // 10: a field
    10, 0, 8, 0, 13, // 11: a method
    11, 0, 8, 0, 13, // 12: a method of an interface
    12, 0, 1, 0, 1, // 13: a name with a type
    15, 9, 0, 99, // 14: a handle, judged for its length alone
    16, 0, 98, // 15: a method type, likewise
    18, 0, 97, 0, 96, // 16: a dynamic call site, likewise
    202, 254, // bytes behind the pool
];

#[test]
fn each_tag(rt: HostRuntime) -> Result<(), Fail> {
    let (pool, len) = Pool::decode(rt.alloc(), &EACH_TAG)?;
    assert_eq!(rt; len, 72);
    let entries = [
        (2, Entry::Integer(-2)),
        (3, Entry::Float([63, 128, 0, 0])),
        (4, Entry::Long(-3)),
        (6, Entry::Double([63, 240, 0, 0, 0, 0, 0, 0])),
        (8, Entry::Class(1)),
        (9, Entry::Text(1)),
        (10, Entry::Field(8, 13)),
        (11, Entry::Method(8, 13)),
        (12, Entry::InterfaceMethod(8, 13)),
        (13, Entry::NameAndType(1, 1)),
        (14, Entry::Handle(9, 99)),
        (15, Entry::MethodType(98)),
        (16, Entry::Dynamic(97, 96)),
    ];
    for (index, entry) in &entries {
        assert!(rt; pool.get(*index) == Some(entry), "at {index}");
    }
    for none in [0, 5, 7, 17, 65535] {
        assert!(rt; pool.get(none).is_none(), "at {none}");
    }
    assert_eq!(rt; pool.text_at(0, 1)?.as_slice(), b"A".as_slice());
    let mut input = Input::new(&[0, 1]);
    assert_eq!(rt; pool.next_text(&mut input)?.as_slice(), b"A".as_slice());
    assert_eq!(rt; pool.class_at(0, 8)?, 1);
    assert_eq!(rt; pool.name_and_type_at(0, 13)?, (1, 1));
    Ok(())
}

const BAD: [(&[u8], usize, BadKind); 20] = [
    (&[], 0, BadKind::Short),
    (&[0], 0, BadKind::Short),
    (&[0, 0], 0, BadKind::PoolCount),
    // 65,535 indices are declared, and no byte follows.
    (&[255, 255], 2, BadKind::Short),
    (&[0, 2, 2, 0], 2, BadKind::PoolTag(2)),
    (&[0, 2, 17, 0, 0, 0, 0], 2, BadKind::PoolTag(17)),
    // No index is left for the second of a Long.
    (&[0, 2, 5, 0], 2, BadKind::PoolTag(5)),
    // A Long and a Double are two fields of four bytes.
    (&[0, 3, 5, 0, 0, 0, 0, 0, 0, 0], 7, BadKind::Short),
    (&[0, 3, 6, 0, 0, 0], 3, BadKind::Short),
    (&[0, 2, 1, 0, 3, 65, 66], 5, BadKind::Short),
    // NUL as one byte, an overlong form and a form that is cut.
    (&[0, 2, 1, 0, 2, 65, 0], 6, BadKind::Text),
    (&[0, 2, 1, 0, 2, 0xC1, 0x81], 5, BadKind::Text),
    (&[0, 2, 1, 0, 3, 65, 0xE2, 0x82], 6, BadKind::Text),
    // Index 0, an index past the pool, and the second half of a Long.
    (&[0, 2, 7, 0, 0], 3, BadKind::PoolIndex(0)),
    (&[0, 2, 8, 0, 2], 3, BadKind::PoolIndex(2)),
    (
        &[0, 4, 5, 0, 0, 0, 0, 0, 0, 0, 0, 7, 0, 2],
        12,
        BadKind::PoolIndex(2),
    ),
    // Entries of another kind than is needed.
    (&[0, 2, 7, 0, 1], 3, BadKind::PoolKind(1)),
    (
        &[0, 3, 1, 0, 1, 65, 12, 0, 1, 0, 2],
        9,
        BadKind::PoolKind(2),
    ),
    (&[0, 3, 1, 0, 1, 65, 9, 0, 1, 0, 1], 7, BadKind::PoolKind(1)),
    // References are judged once the pool has ended.
    (&[0, 3, 7, 0, 9, 1, 0, 5, 65], 8, BadKind::Short),
];

#[test]
fn bad_places(rt: HostRuntime) {
    for (bytes, place, kind) in BAD {
        let found = Pool::decode(rt.alloc(), bytes).err();
        assert_eq!(rt; found, Some(PoolBad::Bad { place, kind }), "at {place}");
    }
}

#[test]
#[tactic(auto, using(crate::proofs::EditorLaws::named_by))]
fn what_was_added(rt: HostRuntime) -> Result<(), Fail> {
    let mut editor = PoolEditor::new(rt.alloc())?;
    let text = units_text(rt.alloc(), &[0x41])?;
    if text.len() > 65535 {
        return Err("a short text".into());
    }
    let name = editor.add(Entry::Utf8(text))?;
    let class = editor.add(Entry::Class(name))?;
    let long = editor.add(Entry::Long(-3))?;
    let handle = editor.add(Entry::Handle(9, 99))?;
    let again = editor.add(Entry::Long(-3))?;
    assert_eq!(rt; [name, class, long, handle, again], [1, 2, 3, 5, 3]);
    let bytes = editor.encode()?;
    let written = [
        0, 6, 1, 0, 1, 65, 7, 0, 1, 5, 255, 255, 255, 255, 255, 255, 255, 253, 15, 9, 0, 99,
    ];
    assert_eq!(rt; bytes.as_slice(), written.as_slice());
    Ok(())
}

#[test]
fn full(rt: HostRuntime) -> Result<(), Fail> {
    let mut editor = PoolEditor::new(rt.alloc())?;
    for n in 0..65533 {
        editor.add(Entry::Integer(n))?;
    }
    assert_eq!(rt; editor.add(Entry::Long(0)), Err(PoolStop::Full(65535)));
    assert_eq!(rt; editor.add(Entry::Integer(-1)), Ok(65534));
    assert_eq!(rt; editor.add(Entry::Integer(-2)), Err(PoolStop::Full(65535)));
    assert_eq!(rt; editor.add(Entry::Integer(7)), Ok(8));
    let (pool, len) = Pool::decode(rt.alloc(), editor.encode()?.as_slice())?;
    assert_eq!(rt; len, 2 + 65534 * 5);
    assert!(rt; pool.get(65534) == Some(&Entry::Integer(-1)));
    Ok(())
}
