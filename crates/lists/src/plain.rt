//! Values that are copied and compared as what they are.

ghost use Rattle.std.specs.Prelude.{◌≡◌, ◌↔◌, IsTrue};
ghost use Rattle.std.proofs.Common.{rules};

/// A type of plain data: a copy of a value is that value.
pub trait Plain: Clone {
    ghost copies: { (x y : Self) → Self.is_clone x y → y ≡ x };
}

/// A type that tests whether two values are the same.
pub trait Same {
    fn same(&self, other: &Self) -> bool
        ensures { IsTrue result ↔ (self.now ≡ other.now) };
}

impl Plain for u8 {
    ghost copies = { Prim.search rules };
}

impl Same for u8 {
    fn same(&self, other: &u8) -> bool {
        self == other
    }
}

impl Plain for u16 {
    ghost copies = { Prim.search rules };
}

impl Same for u16 {
    fn same(&self, other: &u16) -> bool {
        self == other
    }
}

impl Plain for u32 {
    ghost copies = { Prim.search rules };
}

impl Same for u32 {
    fn same(&self, other: &u32) -> bool {
        self == other
    }
}

impl Plain for u64 {
    ghost copies = { Prim.search rules };
}

impl Same for u64 {
    fn same(&self, other: &u64) -> bool {
        self == other
    }
}

impl Plain for i32 {
    ghost copies = { Prim.search rules };
}

impl Same for i32 {
    fn same(&self, other: &i32) -> bool {
        self == other
    }
}

impl Plain for i64 {
    ghost copies = { Prim.search rules };
}

impl Same for i64 {
    fn same(&self, other: &i64) -> bool {
        self == other
    }
}

impl Plain for bool {
    ghost copies = { Prim.search rules };
}

impl Same for bool {
    fn same(&self, other: &bool) -> bool {
        self == other
    }
}

impl<A: Plain, B: Plain> Plain for (A, B) {
    ghost copies = { Prim.search (rules, A.copies, B.copies) };
}

impl<A: Same, B: Same> Same for (A, B) {
    fn same(&self, other: &(A, B)) -> bool {
        self.0.same(&other.0) && self.1.same(&other.1)
    }
}

impl<T: Plain> Plain for Option<T> {
    ghost copies = { Prim.search (rules, T.copies) };
}

impl<T: Same> Same for Option<T> {
    fn same(&self, other: &Option<T>) -> bool {
        match (self, other) {
            (None, None) => true,
            (Some(a), Some(b)) => a.same(b),
            _ => false,
        }
    }
}
