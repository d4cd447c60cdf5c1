//! Failed reads and writes, and their count.
ghost use Rattle.std.specs.Prelude.{◌≡◌, ◌≤◌};
ghost use Rattle.arrow_base.specs.Outside.{RoseOrFull, last_count, one_more};

/// A read or a write that failed. It doesn't say why.
#[derive(Clone, Copy, PartialEq, Eq, Debug)]
pub struct Failed;

// How many calls failed, up to the last value of the count.
#[derive(Drop)]
pub(crate) struct Faults {
    count: u64,
    ghost fits: { count ≤ last_count },
}

impl Faults {
    pub(crate) fn new() -> Faults
        ensures { result.count ≡ 0 }
    {
        Faults { count: 0 }
    }

    pub(crate) fn count(&self) -> u64
        ensures { result ≡ self.now.count }
    {
        self.count
    }

    // Counts one more.
    pub(crate) fn fail(&mut self) -> Failed
        ensures counted { self.new.count ≡ one_more self.old.count }
        ensures never_falls { self.old.count ≤ self.new.count }
        ensures cause { RoseOrFull self.old.count self.new.count }
    {
        self.count = self.count.saturating_add(1);
        Failed
    }
}
