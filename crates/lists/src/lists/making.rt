// Empty lists.
ghost use Rattle.std.specs.Prelude.{◌≡◌, ℕ, false, IfOk, slice_index_or};
ghost use Rattle.lists.specs.Views.{Empty};

use crate::lists::{Lists, VARIABLES};
use crate::reserved::Reserved;
use crate::waiting::Waiting;
use std::alloc::{AllocError, Global};

/// No variable was posted.
fn none_posted() -> [bool; VARIABLES]
    ensures { (x : ℕ) → slice_index_or result x false ≡ false }
{
    [false; VARIABLES]
}

impl Lists {
    /// Nothing waits, nothing was applied or posted, and the next identifier is 1.
    pub fn new(heap: Global) -> Result<Lists, AllocError>
        ensures { IfOk result Empty }
    {
        let waiting = Waiting::new(heap)?;
        let history = Reserved::new(heap)?;
        let woken = Reserved::new(heap)?;
        Ok(Lists {
            waiting,
            history,
            posted: none_posted(),
            next: 1,
            woken,
        })
    }

    /// Makes them as new ones are; the memory stays.
    pub fn clear(&mut self)
        ensures { Empty self.new }
    {
        self.waiting.clear();
        self.history.clear();
        self.posted = none_posted();
        self.next = 1;
        self.woken.clear();
    }
}
