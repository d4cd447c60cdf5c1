//! Which calls are to fail.
ghost use Rattle.std.specs.Prelude.{◌≡◌, ◌+◌};
ghost use Rattle.arrow_base.specs.Outside.{one_more, is_among};

use arrow_core::Items;

// The calls so far, and the numbers of those that are to fail. The first call has the number 1.
#[derive(Drop)]
pub(crate) struct Calls {
    failing: Items<u64>,
    made: u64,
}

impl Calls {
    pub(crate) fn new(failing: Items<u64>) -> Calls
        ensures failing { result.failing ≡ failing }
        ensures none_yet { result.made ≡ 0 }
    {
        Calls { failing, made: 0 }
    }

    // Counts one more call, and says whether it is to fail. A number beyond 64 bits is listed
    // nowhere.
    pub(crate) fn is_next_to_fail(&mut self) -> bool
        ensures listed { result ≡ is_among self.old.failing (self.old.made + 1) }
        ensures counted { self.new.made ≡ one_more self.old.made }
        ensures same { self.new.failing ≡ self.old.failing }
    {
        let failing = self.failing.as_slice();
        match self.made.checked_add(1) {
            Some(number) => {
                self.made = number;
                failing.contains(&number)
            }
            None => false,
        }
    }
}
