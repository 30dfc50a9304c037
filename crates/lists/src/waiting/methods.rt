// What waits, read and changed at its two ends.
ghost use Rattle.std.specs.Prelude.{◌≡◌, suc, ◌+◌, ◌≤◌, true, [], ◌∷◌, ◌++◌, map, length, drop, if◌then◌else◌, IfOk, IfSome};
ghost use Rattle.std.specs.Option.{option_map};
ghost use Rattle.lists.specs.Entries.{entry_means, goal_means, Puttable};
ghost use Rattle.lists.specs.Queues.{queued, can_wait, told_room};
ghost use Rattle.machine.specs.Sheets.{goal as goal_entry, wake as wake_entry, active as active_entry};
ghost use Rattle.table.specs.Lists.{first};

use super::Waiting;
use crate::entry::{Entry, Goal};
use crate::lists::WAITING;
use std::alloc::{AllocError, Global};
use std::collections::VecDeque;

impl Waiting {
    /// Nothing waits.
    pub(crate) fn new(heap: Global) -> Result<Waiting, AllocError>
        ensures { IfOk result (λ w. queued w ≡ []) }
    {
        let entries = VecDeque::with_capacity(heap, WAITING)?;
        Ok(Waiting { entries })
    }

    /// Takes everything away; the memory stays.
    pub(crate) fn clear(&mut self)
        ensures { queued self.new ≡ [] }
    {
        self.entries.clear();
    }

    /// How many items wait.
    pub(crate) fn len(&self) -> usize
        ensures value { result ≡ length (queued self.now) }
        ensures few { result ≤ 512 }
    {
        self.entries.len()
    }

    /// What stands on top, if anything waits.
    pub(crate) fn top(&self) -> Option<Entry>
        ensures value { option_map entry_means result ≡ first (queued self.now) }
        ensures fit { IfSome result (λ e. Puttable (entry_means e)) }
    {
        self.entries.front().copied()
    }

    /// Takes the item on top away, if there is one.
    pub(crate) fn take_top(&mut self)
        ensures { queued self.new ≡ drop 1 (queued self.old) }
    {
        let _ = self.entries.pop_front();
    }

    /// Puts an active constraint in place of the item on top.
    pub(crate) fn activate(&mut self, identifier: u32, occurrence: usize)
        ensures { queued self.new ≡ active_entry identifier (suc occurrence) ∷ drop 1 (queued self.old) }
    {
        self.take_top();
        self.entries.push_front_reserved(Entry::Active {
            identifier,
            occurrence,
        });
    }

    /// Whether the goal can wait: fewer than 512 items wait, and it is a primitive or a constraint that a table takes.
    fn takes(&self, goal: Goal) -> bool
        ensures { result ≡ can_wait self.now (goal_means goal) }
    {
        self.len() < WAITING && goal.is_storable()
    }

    // Two calls, as a deque has two pushes: a parameter for the end would say no more than their names.
    /// Puts a goal at the bottom, or gives it back where it cannot wait.
    pub(crate) fn post(&mut self, goal: Goal) -> Result<(), Goal>
        ensures value { result ≡ told_room (can_wait self.old (goal_means goal)) goal }
        ensures after { queued self.new ≡ (if can_wait self.old (goal_means goal) then queued self.old ++ goal_entry (goal_means goal) ∷ [] else queued self.old) }
    {
        if !self.takes(goal) {
            return Err(goal);
        }
        self.entries.push_back_reserved(Entry::Goal(goal));
        Ok(())
    }

    /// Puts a goal on top, or gives it back where it cannot wait.
    pub(crate) fn push(&mut self, goal: Goal) -> Result<(), Goal>
        ensures value { result ≡ told_room (can_wait self.old (goal_means goal)) goal }
        ensures after { queued self.new ≡ (if can_wait self.old (goal_means goal) then goal_entry (goal_means goal) ∷ queued self.old else queued self.old) }
    {
        if !self.takes(goal) {
            return Err(goal);
        }
        self.entries.push_front_reserved(Entry::Goal(goal));
        Ok(())
    }

    /// Puts constraints to wake on top, the first uppermost.
    pub(crate) fn push_woken(&mut self, woken: &[u32])
        requires { length (queued self.old) + length woken.now ≤ 512 }
        ensures { queued self.new ≡ map wake_entry woken.now ++ queued self.old }
    {
        for identifier in woken.iter().rev() {
            self.entries.push_front_reserved(Entry::Wake(*identifier));
        }
    }
}
