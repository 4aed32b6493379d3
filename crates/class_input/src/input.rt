ghost use Rattle.std.specs.Prelude.{◌≡◌, ◌+◌, ◌<◌, ◌≤◌, ◌^◌, length};

use crate::bad_class::{BadClass, BadKind};

/// A reader of bytes up to a limit, which knows where in the file it stands.
#[derive(Clone, Copy)]
pub struct Input<'a> {
    pub rest: &'a [u8],
    pub at: usize,
    ghost in_range: { at + length rest.now < 2 ^ 63 },
}

impl<'a> Input<'a> {
    ghost use Rattle.std.specs.Prelude.{take, drop};
    ghost use Rattle.std.specs.Int.{w8, w16, w32, w64};
    ghost use Rattle.class_input.specs.Reading.{Gives, GivesBy, In, seen, bytes, number, closed};

    pub fn new(rest: &'a [u8]) -> Input<'a>
        ensures { seen result ≡ record { at = 0; rest = rest.now } }
    {
        Input { rest, at: 0 }
    }

    pub fn starting(rest: &'a [u8], at: usize) -> Input<'a>
        requires { at + length rest.now < 2 ^ 63 }
        ensures { seen result ≡ record { at = at; rest = rest.now } }
    {
        Input { rest, at }
    }

    /// Passes over bytes that are there.
    pub fn skip(&mut self, n: usize)
        requires { n ≤ length self.old.rest.now }
        ensures { seen self.new ≡ record { at = self.old.at + n; rest = drop n self.old.rest.now } }
    {
        self.rest = &self.rest[n..];
        self.at += n;
    }

    /// A field of some bytes. After an `Err` the reader is left as it was.
    #[tactic(auto, unfolding(crate::specs::Reading::bytes))]
    pub fn bytes(&mut self, n: usize) -> Result<&'a [u8], BadClass>
        ensures { GivesBy (λ text. text.now) result self.new (bytes n (seen self.old)) }
    {
        if self.rest.len() < n {
            return Err(BadClass::Bad {
                place: self.at,
                kind: BadKind::Short,
            });
        }
        let (front, rest) = self.rest.split_at(n);
        self.rest = rest;
        self.at += n;
        Ok(front)
    }

    #[tactic(auto, unfolding(crate::specs::Reading::number, crate::specs::Reading::bytes))]
    pub fn u8(&mut self) -> Result<u8, BadClass>
        ensures { Gives result self.new (number w8 (seen self.old)) }
    {
        let text = self.bytes(1)?;
        Ok(text[0])
    }

    #[tactic(auto, unfolding(crate::specs::Reading::number, crate::specs::Reading::bytes))]
    pub fn u16(&mut self) -> Result<u16, BadClass>
        ensures { Gives result self.new (number w16 (seen self.old)) }
    {
        let text = self.bytes(2)?;
        Ok(u16::from_be_bytes([text[0], text[1]]))
    }

    #[tactic(auto, unfolding(crate::specs::Reading::number, crate::specs::Reading::bytes))]
    pub fn u32(&mut self) -> Result<u32, BadClass>
        ensures { Gives result self.new (number w32 (seen self.old)) }
    {
        let text = self.bytes(4)?;
        Ok(u32::from_be_bytes([text[0], text[1], text[2], text[3]]))
    }

    #[tactic(auto, unfolding(crate::specs::Reading::number, crate::specs::Reading::bytes))]
    pub fn u64(&mut self) -> Result<u64, BadClass>
        ensures { Gives result self.new (number w64 (seen self.old)) }
    {
        let text = self.bytes(8)?;
        Ok(u64::from_be_bytes([
            text[0], text[1], text[2], text[3], text[4], text[5], text[6], text[7],
        ]))
    }

    /// A reader of the next bytes alone, at most this many.
    pub fn part(&self, len: usize) -> Input<'a>
        ensures { seen result ≡ record { at = self.now.at; rest = take len self.now.rest.now } }
    {
        if len < self.rest.len() {
            Input {
                rest: &self.rest[..len],
                at: self.at,
            }
        } else {
            *self
        }
    }

    /// Ends a part of this length, whose fields were read by `inner`.
    pub fn close(&mut self, len: usize, inner: Input<'a>) -> Result<(), BadClass>
        ensures { Gives result self.new (closed len (seen self.old) tt (seen inner.entry)) }
    {
        if !inner.rest.is_empty() || self.rest.len() < len {
            return Err(BadClass::Bad {
                place: inner.at,
                kind: BadKind::AttrLength,
            });
        }
        self.rest = &self.rest[len..];
        self.at += len;
        Ok(())
    }
}
