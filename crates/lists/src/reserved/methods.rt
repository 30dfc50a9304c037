// What such a vector holds, and how it grows and shrinks.
ghost use Rattle.std.specs.Prelude.{◌≡◌, ◌≤◌, [], ◌∷◌, ◌++◌, length, take, map, IfOk};
ghost use Rattle.lists.specs.Rooms.{unnamed};
ghost use Rattle.machine.specs.Tuples.{firing_of};
ghost use Rattle.machine.specs.Refined.{names_any};
ghost use Rattle.table.specs.Lists.{memberb};

use super::Reserved;
use machine::tuple::Firing;
use std::alloc::{AllocError, Global};

impl<T: Copy, const N: usize> Reserved<T, N> {
    /// No item.
    pub(crate) fn new(heap: Global) -> Result<Reserved<T, N>, AllocError>
        ensures { IfOk result (λ v. v.items.items ≡ []) }
    {
        let items = Vec::with_capacity(heap, N)?;
        Ok(Reserved { items })
    }

    /// Takes all items out; the memory stays.
    pub(crate) fn clear(&mut self)
        ensures { self.new.items.items ≡ [] }
    {
        self.items.clear();
    }

    /// The items, in their order.
    pub(crate) fn as_slice(&self) -> &[T]
        ensures value { result.now ≡ self.now.items.items }
        ensures few { length result.now ≤ N }
    {
        self.items.as_slice()
    }

    /// Adds an item at the end, where fewer than `N` stand there.
    pub(crate) fn push(&mut self, item: T)
        ensures { self.new.items.items ≡ take N (self.old.items.items ++ item ∷ []) }
    {
        if self.items.len() < N {
            self.items.push_reserved(item);
        }
    }
}

/// Whether the identifier is among those.
fn is_among(identifier: u32, those: &[u32]) -> bool
    ensures { result ≡ memberb identifier those.now }
{
    those.contains(&identifier)
}

/// Whether one of the identifiers is among those gone.
fn names_any(gone: &[u32], identifiers: &[u32]) -> bool
    ensures { result ≡ names_any gone.now identifiers.now }
{
    identifiers
        .iter()
        .any(|identifier| is_among(*identifier, gone))
}

impl<const N: usize> Reserved<Firing, N> {
    /// Takes out what names one of those gone, and leaves the others in their order.
    pub(crate) fn forget(&mut self, gone: &[u32])
        ensures { map firing_of self.new.items.items ≡ unnamed gone.now (map firing_of self.old.items.items) }
    {
        self.items
            .retain(|firing| !names_any(gone, firing.tuple.as_slice()));
    }
}
