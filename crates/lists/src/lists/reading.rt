// What the lists hold.
ghost use Rattle.std.specs.Prelude.{◌≡◌, ◌≤◌, map, length, IfSome};
ghost use Rattle.lists.specs.Entries.{entry_means, Puttable};
ghost use Rattle.lists.specs.Rooms.{Following};
ghost use Rattle.lists.specs.Views.{waiting_of, history_of, posted_of};
ghost use Rattle.machine.specs.Tuples.{firing_of};
ghost use Rattle.std.specs.Option.{option_map};
ghost use Rattle.table.specs.Lists.{first};

use crate::entry::Entry;
use crate::lists::Lists;
use machine::tuple::Firing;

impl Lists {
    /// What stands on top, if anything waits.
    pub fn top(&self) -> Option<Entry>
        ensures value { option_map entry_means result ≡ first (waiting_of self.now) }
        ensures fit { IfSome result (λ e. Puttable (entry_means e)) }
    {
        self.waiting.top()
    }

    /// How many items wait.
    pub fn waiting_len(&self) -> usize
        ensures value { result ≡ length (waiting_of self.now) }
        ensures few { result ≤ 512 }
    {
        self.waiting.len()
    }

    /// What was applied, the oldest first.
    pub fn history(&self) -> &[Firing]
        ensures { map firing_of result.now ≡ history_of self.now }
    {
        self.history.as_slice()
    }

    /// How many tuples stand in the history.
    pub fn history_len(&self) -> usize
        ensures value { result ≡ length (history_of self.now) }
        ensures few { result ≤ 512 }
    {
        self.history().len()
    }

    /// The identifier that is given next, 1,000,001 where none is left.
    pub fn next(&self) -> u32
        ensures value { result ≡ self.now.next }
        ensures bounds { Following result }
    {
        self.next
    }

    /// Whether the variable was posted.
    pub fn is_posted(&self, x: u8) -> bool
        ensures { result ≡ posted_of self.now x }
    {
        self.posted[x as usize]
    }
}
