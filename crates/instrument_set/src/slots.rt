//! Where the tags of a written method lie.

ghost use Rattle.std.specs.Prelude.{◌≡◌, ◌+◌, ◌*◌, ◌<◌, ◌≤◌};

/// The int locals behind a method's own that hold tags: first one for each local, then one for each
/// word of the stack, then eight more.
#[derive(Clone, Copy)]
pub(crate) struct Slots {
    pub(crate) locals: u16,
    pub(crate) words: u16,
    ghost few_locals: { locals ≤ 100 },
    ghost few_words: { words ≤ 100 },
}

impl Slots {
    /// The slots of a method with this many locals and stack words.
    pub(crate) fn of(locals: u16, words: u16) -> Slots
        requires few_locals { locals ≤ 100 }
        requires few_words { words ≤ 100 }
        ensures locals { result.locals ≡ locals }
        ensures words { result.words ≡ words }
    {
        Slots { locals, words }
    }

    /// The slot of a local's tag.
    pub(crate) fn local_tag(self, local: u16) -> u16
        requires { local < self.locals }
        ensures { result ≡ self.locals + local }
    {
        self.locals + local
    }

    /// The slot of the tag of a word of the stack, counted from its bottom.
    pub(crate) fn word_tag(self, word: u16) -> u16
        requires { word < self.words }
        ensures { result ≡ 2 * self.locals + word }
    {
        2 * self.locals + word
    }

    /// The first slot that holds a tag.
    pub(crate) fn first(self) -> u16
        ensures { result ≡ self.locals }
    {
        self.locals
    }

    /// The number behind the last slot that holds a tag.
    pub(crate) fn end(self) -> u16
        ensures { result ≡ 2 * self.locals + self.words }
    {
        2 * self.locals + self.words
    }

    /// The locals of the written method.
    pub(crate) fn max_locals(self) -> u16
        ensures { result ≡ 2 * self.locals + self.words + 8 }
    {
        2 * self.locals + self.words + 8
    }

    /// The stack words of the written method.
    pub(crate) fn max_stack(self) -> u16
        ensures { result ≡ 2 * self.words + 16 }
    {
        2 * self.words + 16
    }
}
