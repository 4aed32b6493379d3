ghost use Rattle.std.specs.Prelude.{◌≡◌, IfOk};

use super::*;
use lists::Seq;
use std::alloc::{AllocError, Global};
use std::test::Fail;

// One frame of each form of JVMS 4.7.4, and three bytes after the last.
const EACH_FORM: [u8; 49] = [
    0, 9, // number_of_entries
    5, // same
    67, 7, 1, 2, // same locals, one stack item
    247, 0, 10, 8, 0, 4, // the same, extended
    250, 0, 0, // chop one
    251, 1, 0, // same, extended
    252, 0, 1, 4, // append one
    254, 0, 0, 0, 5, 6, // append three
    248, 0, 0, // chop three
    255, 0, 9, 0, 2, 1, 7, 0, 9, 0, 1, 8, 0, 3, // full
    202, 254, 186,
];

// Offset, locals and stack of each, where the first frame has `FIRST`.
const FIRST: [RawType; 2] = [RawType::First(0), RawType::Int];

const EXPANDED: [(u16, &[RawType], &[RawType]); 9] = [
    (5, &FIRST, &[]),
    (9, &FIRST, &[RawType::Object(258)]),
    (20, &FIRST, &[RawType::Uninit(4)]),
    (21, &[RawType::First(0)], &[]),
    (278, &[RawType::First(0)], &[]),
    (280, &[RawType::First(0), RawType::Long], &[]),
    (
        281,
        &[
            RawType::First(0),
            RawType::Long,
            RawType::Top,
            RawType::Null,
            RawType::UninitThis,
        ],
        &[],
    ),
    (282, &[RawType::First(0), RawType::Long], &[]),
    (
        292,
        &[RawType::Int, RawType::Object(9)],
        &[RawType::Uninit(3)],
    ),
];

#[test]
fn each_form_expanded(rt: HostRuntime) -> Result<(), Fail> {
    let frames = decode_frames(rt.alloc(), &EACH_FORM, &FIRST)?;
    assert_eq!(rt; frames.len(), EXPANDED.len());
    for (frame, (offset, locals, stack)) in frames.as_slice().iter().zip(&EXPANDED) {
        assert_eq!(rt; frame.offset, *offset);
        assert_eq!(rt; frame.locals.as_slice(), *locals, "at {offset}");
        assert_eq!(rt; frame.stack.as_slice(), *stack, "at {offset}");
    }
    Ok(())
}

// Frame, place and what stands there, in the order of the bytes.
const MARKS: [(u32, usize, Mark); 13] = [
    (0, 2, Mark::Delta(5)),
    (1, 3, Mark::Delta(3)),
    (1, 5, Mark::Object(258)),
    (2, 8, Mark::Delta(10)),
    (2, 11, Mark::Uninit(4)),
    (3, 14, Mark::Delta(0)),
    (4, 17, Mark::Delta(256)),
    (5, 20, Mark::Delta(1)),
    (6, 24, Mark::Delta(0)),
    (7, 30, Mark::Delta(0)),
    (8, 33, Mark::Delta(9)),
    (8, 39, Mark::Object(9)),
    (8, 44, Mark::Uninit(3)),
];

#[test]
fn each_form_marked(rt: HostRuntime) -> Result<(), Fail> {
    let (marks, taken) = frame_marks(rt.alloc(), &EACH_FORM, &FIRST)?;
    assert_eq!(rt; taken, 46);
    assert_eq!(rt; marks.len(), MARKS.len());
    for (found, (frame, place, mark)) in marks.as_slice().iter().zip(&MARKS) {
        let wanted = FrameMark {
            frame: *frame,
            place: *place,
            mark: *mark,
        };
        assert_eq!(rt; *found, wanted, "at {place}");
    }
    Ok(())
}

// The first frame has one local.
const REFUSED: [(&[u8], FrameStop); 18] = [
    (&[], FrameStop::Short(0)),
    (&[0], FrameStop::Short(0)),
    (&[0, 1], FrameStop::Short(2)),
    (&[0, 1, 128], FrameStop::Reserved(2, 128)),
    (&[0, 1, 246], FrameStop::Reserved(2, 246)),
    (&[0, 1, 64, 2], FrameStop::BadTag(3, 2)),
    (&[0, 1, 64, 3], FrameStop::BadTag(3, 3)),
    (&[0, 1, 64, 9], FrameStop::BadTag(3, 9)),
    (&[0, 1, 64, 7, 0], FrameStop::Short(4)),
    (&[0, 1, 247, 0], FrameStop::Short(3)),
    (&[0, 1, 247, 0, 0], FrameStop::Short(5)),
    // Two locals of one are chopped: the delta is not looked at.
    (&[0, 1, 249], FrameStop::Underflow(2)),
    (&[0, 1, 250, 0], FrameStop::Short(3)),
    (&[0, 2, 250, 0, 0, 250, 0, 0], FrameStop::Underflow(5)),
    (&[0, 1, 254, 0, 0, 1, 1], FrameStop::Short(7)),
    // 65,535 locals are declared, and no byte follows.
    (&[0, 1, 255, 0, 0, 255, 255], FrameStop::Short(7)),
    (&[0, 1, 255, 0, 0, 0, 1, 1, 0], FrameStop::Short(8)),
    // Offsets are judged once all frames have their shape.
    (&[0, 3, 251, 255, 255, 0, 128], FrameStop::Reserved(6, 128)),
];

#[test]
fn refused(rt: HostRuntime) {
    for (bytes, stop) in REFUSED {
        let first = [RawType::Int];
        assert_eq!(rt; decode_frames(rt.alloc(), bytes, &first).err(), Some(stop));
        assert_eq!(rt; frame_marks(rt.alloc(), bytes, &first).err(), Some(stop));
    }
}

// Offsets up to 65,535, then past it: the places of the deltas, the second of which the type byte holds.
const PAST: [(&[u8], Option<FrameStop>); 4] = [
    (&[0, 2, 251, 255, 254, 0], None),
    (&[0, 2, 251, 255, 255, 0], Some(FrameStop::Offset(5))),
    (
        &[0, 3, 251, 255, 254, 0, 251, 0, 0],
        Some(FrameStop::Offset(7)),
    ),
    (
        &[0, 3, 251, 255, 255, 1, 251, 255, 255],
        Some(FrameStop::Offset(5)),
    ),
];

#[test]
fn offsets_past_the_end(rt: HostRuntime) -> Result<(), Fail> {
    for (bytes, stop) in PAST {
        assert_eq!(rt; decode_frames(rt.alloc(), bytes, &[]).err(), stop);
        let (marks, taken) = frame_marks(rt.alloc(), bytes, &[])?;
        assert_eq!(rt; taken, bytes.len());
        assert!(rt; !marks.is_empty());
    }
    Ok(())
}

fn seq(alloc: Global, types: &[RawType]) -> Result<Seq<RawType>, AllocError>
    ensures { IfOk result (λ all. all ≡ types.now) }
{
    let mut all = Vec::new(alloc);
    all.extend_from_slice(types)?;
    Ok(Seq::from_vec(all))
}

#[test]
fn full_frames_written(rt: HostRuntime) -> Result<(), Fail> {
    let frames = [
        RawFrame {
            offset: 0,
            locals: seq(rt.alloc(), &[RawType::Int, RawType::Object(258)])?,
            stack: seq(rt.alloc(), &[])?,
        },
        RawFrame {
            offset: 3,
            locals: seq(rt.alloc(), &[])?,
            stack: seq(rt.alloc(), &[RawType::Uninit(4), RawType::Null])?,
        },
    ];
    let bytes = encode_frames(rt.alloc(), &frames)?;
    let written = [
        0, 2, 255, 0, 0, 0, 2, 1, 7, 1, 2, 0, 0, 255, 0, 2, 0, 0, 0, 2, 8, 0, 4, 5,
    ];
    assert_eq!(rt; bytes.as_slice(), written.as_slice());
    let back = decode_frames(rt.alloc(), bytes.as_slice(), &[RawType::Top])?;
    assert!(rt; back.as_slice() == frames.as_slice());
    Ok(())
}

#[test]
fn printed(rt: HostRuntime) -> Result<(), Fail> {
    let printed = [
        (FrameStop::Short(4), "byte 4: short"),
        (
            FrameStop::Reserved(2, 128),
            "byte 2: reserved frame type 128",
        ),
        (FrameStop::BadTag(3, 9), "byte 3: type tag 9"),
        (FrameStop::Underflow(2), "byte 2: chops too many locals"),
        (FrameStop::Offset(5), "byte 5: offset over 65535"),
        (FrameStop::Memory, "out of memory"),
    ];
    for (stop, text) in &printed {
        let shown = format!(in rt.alloc(); "{stop}")?;
        assert_eq!(rt; shown.as_str(), *text);
    }
    Ok(())
}
