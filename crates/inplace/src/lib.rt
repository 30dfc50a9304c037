// Short lists that lie in the value itself.
#![tactic(auto)]

ghost use Rattle.std.specs.Prelude.{◌≤◌};

mod methods;

/// At most `N` items in a row.
// `ArrayVec` of the library is not `Copy`, and lists of these are copied out of vectors that stay.
#[derive(Debug)]
pub struct InPlace<T, const N: usize> {
    places: [T; N],
    filled: usize,
    ghost few: { filled ≤ N },
}

impl<T: Copy, const N: usize> Copy for InPlace<T, N> {}

#[cfg(test)]
mod tests {
    use super::InPlace;
    use std::test::Fail;

    #[test]
    fn a_fourth_item_finds_no_place(rt: HostRuntime) -> Result<(), Fail> {
        let mut list: InPlace<u32, 3> = InPlace::new();
        for item in [7, 8, 9, 10] {
            list = list.with(item);
        }
        assert_eq!(rt; list.as_slice(), [7, 8, 9].as_slice());
        Ok(())
    }

    #[test]
    fn a_slice_that_is_too_long_gives_none(rt: HostRuntime) -> Result<(), Fail> {
        let short: Option<InPlace<u32, 2>> = InPlace::from_slice(&[4, 5]);
        let long: Option<InPlace<u32, 2>> = InPlace::from_slice(&[4, 5, 6]);
        assert!(rt; long.is_none());
        match short {
            Some(list) => assert_eq!(rt; list.as_slice(), [4, 5].as_slice()),
            None => return Err(Fail::new("two items were refused")),
        }
        Ok(())
    }

    #[test]
    fn lists_of_the_same_items_are_equal(rt: HostRuntime) -> Result<(), Fail> {
        let one: InPlace<u32, 3> = InPlace::new().with(1).with(2);
        let other: InPlace<u32, 3> = InPlace::new().with(1);
        assert!(rt; one != other);
        assert!(rt; one == other.with(2));
        Ok(())
    }
}
