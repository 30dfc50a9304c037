// Changes of the lists.
ghost use Rattle.std.specs.Prelude.{◌≡◌, suc, ◌+◌, ◌<◌, ◌≤◌, true, [], ◌∷◌, ◌++◌, map, length, drop, if◌then◌else◌, nat_eq};
ghost use Rattle.lists.specs.Entries.{goal_means};
ghost use Rattle.lists.specs.Queues.{told_room};
ghost use Rattle.lists.specs.Rooms.{unnamed};
ghost use Rattle.lists.specs.Views.{waiting_of, history_of, posted_of, woken_of, takes_goal, Stays, Waits, Applied, Posted, Given};
ghost use Rattle.machine.specs.Sheets.{goal as goal_entry, wake as wake_entry, active as active_entry};
ghost use Rattle.machine.specs.Tuples.{firing_of};

use crate::entry::Goal;
use crate::lists::{Lists, WAITING};
use machine::tuple::Firing;
use table::rows::GREATEST_IDENTIFIER;

impl Lists {
    /// Takes the item on top away, if there is one.
    pub fn drop_top(&mut self)
        ensures { Waits self.old self.new (drop 1 (waiting_of self.old)) }
    {
        self.waiting.take_top();
    }

    /// Puts an active constraint in place of the item on top; its occurrences are counted from 0.
    pub fn activate_top(&mut self, identifier: u32, occurrence: usize)
        ensures { Waits self.old self.new (active_entry identifier (suc occurrence) ∷ drop 1 (waiting_of self.old)) }
    {
        self.waiting.activate(identifier, occurrence);
    }

    /// Gives the next identifier and puts it, active at its first occurrence, in place of the item on top; nothing where no identifier is left.
    pub fn activate_next(&mut self)
        ensures given { self.old.next ≤ 1_000_000 → Given self.old self.new (active_entry self.old.next 1 ∷ drop 1 (waiting_of self.old)) }
        ensures spent { 1_000_000 < self.old.next → Stays self.old self.new }
    {
        if self.next <= GREATEST_IDENTIFIER {
            self.waiting.activate(self.next, 0);
            self.next += 1;
        }
    }

    /// Puts a goal at the bottom, or gives it back where it cannot wait.
    pub fn post(&mut self, goal: Goal) -> Result<(), Goal>
        ensures value { result ≡ told_room (takes_goal self.old (goal_means goal)) goal }
        ensures after { Waits self.old self.new (if takes_goal self.old (goal_means goal) then waiting_of self.old ++ goal_entry (goal_means goal) ∷ [] else waiting_of self.old) }
    {
        self.waiting.post(goal)
    }

    /// Puts a goal on top, or gives it back where it cannot wait.
    pub fn push(&mut self, goal: Goal) -> Result<(), Goal>
        ensures value { result ≡ told_room (takes_goal self.old (goal_means goal)) goal }
        ensures after { Waits self.old self.new (if takes_goal self.old (goal_means goal) then goal_entry (goal_means goal) ∷ waiting_of self.old else waiting_of self.old) }
    {
        self.waiting.push(goal)
    }

    /// Puts the woken in place of the item on top, the first uppermost; nothing where more than 512 would wait.
    pub fn wake(&mut self)
        ensures room { length (drop 1 (waiting_of self.old)) + length (woken_of self.old) ≤ 512 → Waits self.old self.new (map wake_entry (woken_of self.old) ++ drop 1 (waiting_of self.old)) }
        ensures crowded { 512 < length (drop 1 (waiting_of self.old)) + length (woken_of self.old) → Stays self.old self.new }
    {
        if self.waiting.len().saturating_sub(1) + self.woken.as_slice().len() <= WAITING {
            self.waiting.take_top();
            self.waiting.push_woken(self.woken.as_slice());
        }
    }

    /// Adds what was applied to the history, if fewer than 512 stand there.
    pub fn remember(&mut self, firing: Firing)
        ensures room { length (history_of self.old) < 512 → Applied self.old self.new (history_of self.old ++ firing_of firing ∷ []) }
        ensures crowded { 512 ≤ length (history_of self.old) → Stays self.old self.new }
    {
        self.history.push(firing);
    }

    /// Marks the variable as posted.
    pub fn mark_posted(&mut self, x: u8)
        ensures { Posted self.old self.new (λ y. (if nat_eq y x then true else posted_of self.old y)) }
    {
        self.posted[x as usize] = true;
    }

    /// Takes out of the history what names one of those gone.
    pub fn forget(&mut self, gone: &[u32])
        ensures { Applied self.old self.new (unnamed gone.now (history_of self.old)) }
    {
        self.history.forget(gone);
    }
}
