use super::*;
use std::test::Fail;

// JVMS 4.4.7: one byte, NUL, two bytes, three bytes, and a character past the 16-bit range as its two surrogates.
const TEXTS: [(&[u8], &[u16]); 7] = [
    (&[], &[]),
    (&[0x41, 0x7F], &[0x41, 0x7F]),
    (&[0xC0, 0x80], &[0]),
    (&[0xC2, 0x80, 0xC3, 0xA9, 0xDF, 0xBF], &[0x80, 0xE9, 0x7FF]),
    (&[0xE0, 0xA0, 0x80, 0xE2, 0x82, 0xAC], &[0x800, 0x20AC]),
    (&[0xEF, 0xBF, 0xBF], &[0xFFFF]),
    (
        &[0xED, 0xA0, 0xBD, 0xED, 0xB8, 0x80, 0x41],
        &[0xD83D, 0xDE00, 0x41],
    ),
];

#[test]
fn texts_both_ways(rt: HostRuntime) -> Result<(), Fail> {
    for (bytes, units) in TEXTS {
        let read = text_units(rt.alloc(), bytes)?;
        assert_eq!(rt; read.as_slice(), units);
        assert_eq!(rt; wrong_place(bytes), None);
        let written = units_text(rt.alloc(), units)?;
        assert_eq!(rt; written.as_slice(), bytes);
    }
    Ok(())
}

// NUL as one byte, bytes that begin no character, overlong forms, forms that are cut, and the four bytes of UTF-8.
const WRONG: [(&[u8], usize); 12] = [
    (&[0x00], 0),
    (&[0x41, 0x00], 1),
    (&[0x80], 0),
    (&[0x41, 0xC1, 0x81], 1),
    (&[0xC0, 0x81], 0),
    (&[0xE0, 0x9F, 0xBF], 0),
    (&[0x41, 0x42, 0xC3], 2),
    (&[0xC3, 0x41], 0),
    (&[0xC3, 0xA9, 0xE2, 0x82], 2),
    (&[0xE2, 0x82, 0x41], 0),
    (&[0xED, 0xA0, 0xBD, 0xFF], 3),
    (&[0xF0, 0x9F, 0x98, 0x80], 0),
];

#[test]
fn wrong_characters(rt: HostRuntime) {
    for (bytes, place) in WRONG {
        assert_eq!(rt;
            text_units(rt.alloc(), bytes).err(),
            Some(TextStop::Bad(place)),
            "at {place}"
        );
        assert_eq!(rt; wrong_place(bytes), Some(place), "at {place}");
    }
}
