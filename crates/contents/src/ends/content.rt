//! A range as what a class holds.

ghost use Rattle.std.specs.Prelude.{ℤ, pos, negsuc, ◌≤ℤ◌};
ghost use Rattle.contents.specs.Contents.{Holding};
ghost use Rattle.contents.specs.Ranges.{EndsHold};
ghost use Rattle.std.proofs.Common.{rules, arith};

use super::Ends;
use crate::content::Content;
use terms::{GREATEST_VALUE, LEAST_VALUE};

impl Ends {
    /// The values from `least` to `greatest`; none where there is none.
    pub fn between(least: i32, greatest: i32) -> Option<Ends>
        ensures { Holding EndsHold (λ z. (least ≤ℤ z) × (z ≤ℤ greatest)) result }
    {
        Ends::ordered(least.max(LEAST_VALUE), greatest.min(GREATEST_VALUE))
    }

    /// The same, where `least` is not below the values and `greatest` not above them.
    fn ordered(least: i32, greatest: i32) -> Option<Ends>
        requires low { negsuc 999_999 ≤ℤ least }
        requires high { greatest ≤ℤ pos 1_000_000 }
        ensures { Holding EndsHold (λ z. (least ≤ℤ z) × (z ≤ℤ greatest)) result }
    {
        if least > greatest {
            None
        } else {
            Some(Ends { least, greatest })
        }
    }
}

impl Content for Ends {
    ghost holds = { λ e z. EndsHold e z };

    ghost low = { λ e. e.least };

    ghost high = { λ e. e.greatest };

    ghost ends = { first_of (Prim.search rules, Prim.grind (arith, Self.row.coded.inj)) };

    ghost between = { first_of (Prim.search rules, Prim.grind (arith, Self.row.coded.inj)) };

    ghost proper = { first_of (Prim.search rules, Prim.grind (arith, Self.row.coded.inj)) };

    fn all() -> Ends {
        Ends {
            least: LEAST_VALUE,
            greatest: GREATEST_VALUE,
        }
    }

    fn only(n: i32) -> Option<Ends> {
        Ends::between(n, n)
    }

    fn meet(self, other: Ends) -> Option<Ends> {
        let least = self.least.max(other.least);
        let greatest = self.greatest.min(other.greatest);
        Ends::ordered(least, greatest)
    }

    fn is_within(self, other: Ends) -> bool {
        other.least <= self.least && self.greatest <= other.greatest
    }

    fn least(self) -> i32 {
        self.least
    }

    fn greatest(self) -> i32 {
        self.greatest
    }
}
