//! An optional number as what a class holds: that number, or nothing yet and so any value.

ghost use Rattle.contents.specs.Ranges.{NameHold, name_low, name_high};
ghost use Rattle.std.proofs.Common.{rules};

use super::Number;
use crate::content::Content;
use terms::{GREATEST_VALUE, LEAST_VALUE, is_value};

impl Content for Option<Number> {
    ghost holds = { λ o z. NameHold o z };

    ghost low = { λ o. name_low o };

    ghost high = { λ o. name_high o };

    ghost ends = { Prim.search rules };

    ghost between = { Prim.search rules };

    ghost proper = { Prim.search rules };

    fn all() -> Option<Number> {
        None
    }

    fn only(n: i32) -> Option<Option<Number>> {
        if is_value(n) {
            Some(Some(Number { value: n }))
        } else {
            None
        }
    }

    fn meet(self, other: Option<Number>) -> Option<Option<Number>> {
        match (self, other) {
            (Some(one), Some(two)) if one.value != two.value => None,
            (None, _) => Some(other),
            (_, _) => Some(self),
        }
    }

    fn is_within(self, other: Option<Number>) -> bool {
        match (self, other) {
            (_, None) => true,
            (None, Some(_)) => false,
            (Some(one), Some(two)) => one.value == two.value,
        }
    }

    fn least(self) -> i32 {
        match self {
            Some(number) => number.value,
            None => LEAST_VALUE,
        }
    }

    fn greatest(self) -> i32 {
        match self {
            Some(number) => number.value,
            None => GREATEST_VALUE,
        }
    }
}
