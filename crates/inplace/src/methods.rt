// What a short list is made of and asked.
ghost use Rattle.std.specs.Prelude.{◌≡◌, ⊤, ◌<◌, ◌≤◌, [], ◌∷◌, ◌++◌, length, take, MatchOption};
ghost use Rattle.std.specs.Cmp.{on_per, on_equiv};
ghost use Rattle.std.specs.Cmp.Lexicographic.{pointwise, lists_per, lists_equiv};
ghost use Rattle.inplace.specs.Items.{items};

use crate::InPlace;
use std::alloc::AllocError;

impl<T: Copy, const N: usize> Clone for InPlace<T, N> {
    ghost is_clone = { λ a b. b ≡ a };

    ghost is_infallible = { λ _. ⊤ };

    fn clone(&self) -> Result<InPlace<T, N>, AllocError> {
        Ok(*self)
    }
}

impl<T: Copy + Default, const N: usize> InPlace<T, N> {
    /// No item; the places hold the default until they are filled.
    pub fn new() -> InPlace<T, N>
        ensures { items result ≡ [] }
    {
        InPlace {
            places: [T::default(); N],
            filled: 0,
        }
    }

    /// The items of a slice, where they are `N` at most.
    pub fn from_slice(slice: &[T]) -> Option<InPlace<T, N>>
        ensures { MatchOption result (N < length slice.now) (λ a. (length slice.now ≤ N) × (items a ≡ slice.now)) }
    {
        if slice.len() > N {
            return None;
        }
        let mut places = [T::default(); N];
        // Not by `copy_from_slice`, which takes half as long again.
        for (place, item) in slice.iter().enumerate() {
            places[place] = *item;
        }
        Some(InPlace {
            places,
            filled: slice.len(),
        })
    }
}

impl<T: Copy, const N: usize> InPlace<T, N> {
    /// The items, in their order.
    pub fn as_slice(&self) -> &[T]
        ensures value { result.now ≡ items self.now }
        ensures few { length result.now ≤ N }
    {
        &self.places[..self.filled]
    }

    /// With one item more at the end, where a place is left for it.
    pub fn with(self, item: T) -> InPlace<T, N>
        ensures { items result ≡ take N (items self ++ item ∷ []) }
    {
        if self.filled == N {
            return self;
        }
        let mut places = self.places;
        places[self.filled] = item;
        InPlace {
            places,
            filled: self.filled + 1,
        }
    }
}

impl<T: PartialEq, const N: usize> PartialEq for InPlace<T, N> {
    ghost eq = { λ a b. pointwise T.eq (items a) (items b) };

    ghost laws = { on_per (λ a. items a) (lists_per T.laws) };

    fn eq(&self, other: &Self) -> bool {
        self.places[..self.filled] == other.places[..other.filled]
    }
}

impl<T: Eq, const N: usize> Eq for InPlace<T, N> {
    ghost laws = { on_equiv (λ a. items a) (lists_equiv T.Eq.laws) };
}
