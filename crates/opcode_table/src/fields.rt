//! Numbers in the bytes of code.

ghost use Rattle.std.specs.Prelude.{◌≡◌, ◌+◌, ◌<◌, ◌≤◌, length};
ghost use Rattle.opcode_table.specs.Fields as field;

#[tactic(auto, unfolding(crate::specs::Fields::u8_at))]
pub(crate) fn u8_at(text: &[u8], at: usize) -> u8
    requires { at < length text.now }
    ensures { result ≡ field.u8_at text.now at }
{
    text[at]
}

#[tactic(auto, unfolding(crate::specs::Fields::u16_at))]
pub(crate) fn u16_at(text: &[u8], at: usize) -> u16
    requires { at + 2 ≤ length text.now }
    ensures { result ≡ field.u16_at text.now at }
{
    u16::from_be_bytes([text[at], text[at + 1]])
}

#[tactic(auto, unfolding(crate::specs::Fields::i8_at))]
pub(crate) fn i8_at(text: &[u8], at: usize) -> i8
    requires { at < length text.now }
    ensures { result ≡ field.i8_at text.now at }
{
    text[at].cast_signed()
}

#[tactic(auto, unfolding(crate::specs::Fields::i16_at))]
pub(crate) fn i16_at(text: &[u8], at: usize) -> i16
    requires { at + 2 ≤ length text.now }
    ensures { result ≡ field.i16_at text.now at }
{
    i16::from_be_bytes([text[at], text[at + 1]])
}

#[tactic(auto, unfolding(crate::specs::Fields::i32_at))]
pub(crate) fn i32_at(text: &[u8], at: usize) -> i32
    requires { at + 4 ≤ length text.now }
    ensures { result ≡ field.i32_at text.now at }
{
    i32::from_be_bytes([text[at], text[at + 1], text[at + 2], text[at + 3]])
}
