//! Calls that are numbered, of which some fail.

ghost use Rattle.std.specs.Prelude.{◌≡◌, ◌↔◌, Contains, IsTrue};
ghost use Rattle.outside_io.specs.MemoryKinds.{after};

/// The number of the next call of a device in memory, from 0, and the numbers of the calls that
/// fail. All calls after number 2^64 - 1 have that number too.
#[derive(Drop)]
pub struct Calls {
    pub next: u64,
    pub failing: Vec<u64>,
}

impl Calls {
    /// No call was made yet.
    pub fn new(failing: Vec<u64>) -> Calls
        ensures { result ≡ record { next = 0; failing = failing } }
    {
        Calls { next: 0, failing }
    }

    /// Numbers one more call, and says whether it fails.
    pub fn fails(&mut self) -> bool
        ensures fails { IsTrue result ↔ Contains self.old.failing.items self.old.next }
        ensures next { self.new ≡ record self.old { next = after self.old.next } }
    {
        let fails = self.failing.contains(&self.next);
        self.next = self.next.saturating_add(1);
        fails
    }
}
