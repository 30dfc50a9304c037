//! Examples of theories: each is proved safe, and run.

#![tactic(auto)]

#[cfg(test)]
mod tests {
    use contents::content::Content;
    use std::test::Fail;
    use terms::{Operand, Primitive};
    use theory::bounds::Bounds;
    use theory::interface::{RangedTheory, Theory};
    use theory::interpreted::Interpreted;
    use theory::names::Names;
    use theory::told::Told;
    use theory::uses::{tell_and_ask, tell_in_two_orders};

    fn same(x: u8, y: u8) -> Primitive<Operand> {
        Primitive::Same(Operand::Variable(x), Operand::Variable(y))
    }

    fn is(x: u8, n: i32) -> Primitive<Operand> {
        Primitive::Same(Operand::Variable(x), Operand::Value(n))
    }

    fn least(x: u8, n: i32) -> Primitive<Operand> {
        Primitive::Least(Operand::Variable(x), n)
    }

    fn most(x: u8, n: i32) -> Primitive<Operand> {
        Primitive::Most(Operand::Variable(x), n)
    }

    #[test]
    fn three_classes_join(rt: HostRuntime) -> Result<(), Fail> {
        let mut names = Names::new(rt.alloc())?;
        for _ in 0..3 {
            names.make();
        }
        assert_eq!(rt; names.tell(same(0, 1)), Told::Kept);
        assert_eq!(rt; names.ask(same(0, 2)), false);
        assert_eq!(rt; names.tell(same(2, 1)), Told::Kept);
        assert_eq!(rt; names.ask(same(0, 2)), true);
        assert_eq!(rt; names.tell(is(2, 7)), Told::Kept);
        assert_eq!(rt; names.fixed(0), true);
        assert_eq!(rt; names.least(0), Some(7));
        Ok(())
    }

    #[test]
    fn contradiction_fails(rt: HostRuntime) -> Result<(), Fail> {
        let mut bounds = Bounds::new(rt.alloc())?;
        bounds.make();
        bounds.make();
        assert_eq!(rt; bounds.tell(least(0, 6)), Told::Kept);
        assert_eq!(rt; bounds.tell(most(1, 5)), Told::Kept);
        assert_eq!(rt; bounds.tell(same(0, 1)), Told::Failed);
        assert_eq!(rt; bounds.failed(), true);
        Ok(())
    }

    #[test]
    fn ends_of_the_range(rt: HostRuntime) -> Result<(), Fail> {
        let mut bounds = Bounds::new(rt.alloc())?;
        bounds.make();
        assert_eq!(rt; bounds.least(0), Some(-1_000_000));
        assert_eq!(rt; bounds.greatest(0), Some(1_000_000));
        assert_eq!(rt; bounds.tell(least(0, 1_000_000)), Told::Kept);
        assert_eq!(rt; bounds.fixed(0), true);
        assert_eq!(rt; bounds.ask(is(0, 1_000_000)), true);
        Ok(())
    }

    #[test]
    fn unknown_operands(rt: HostRuntime) -> Result<(), Fail> {
        let mut names = Names::new(rt.alloc())?;
        names.make();
        assert_eq!(rt; names.tell(same(0, 1)), Told::Unknown);
        assert_eq!(rt; names.tell(is(0, 1_000_001)), Told::Unknown);
        assert_eq!(rt; names.ask(same(1, 1)), false);
        assert_eq!(rt; names.fixed(1), false);
        assert_eq!(rt; names.least(1), None);
        assert_eq!(rt; names.failed(), false);
        Ok(())
    }

    #[test]
    fn capacity_reached(rt: HostRuntime) -> Result<(), Fail> {
        let mut names = Names::new(rt.alloc())?;
        for _ in 0..255 {
            names.make();
        }
        assert_eq!(rt; names.make(), Some(255));
        assert_eq!(rt; names.make(), None);
        assert_eq!(rt; names.count(), 256);
        Ok(())
    }

    #[test]
    fn answers_of_a_failed_theory(rt: HostRuntime) -> Result<(), Fail> {
        let mut names = Names::new(rt.alloc())?;
        names.make();
        assert_eq!(rt; names.tell(least(0, 0)), Told::Failed);
        assert_eq!(rt; names.ask(is(0, 3)), true);
        assert_eq!(rt; names.ask(is(1, 3)), false);
        assert_eq!(rt; names.fixed(0), true);
        assert_eq!(rt; names.greatest(0), None);
        assert_eq!(rt; names.make(), Some(1));
        assert_eq!(rt; names.tell(is(1, 2)), Told::Failed);
        names.clear();
        assert_eq!(rt; names.count(), 0);
        assert_eq!(rt; names.failed(), false);
        Ok(())
    }

    #[test]
    fn told_in_two_orders(rt: HostRuntime) -> Result<(), Fail> {
        let mut one = Bounds::new(rt.alloc())?;
        let mut other = Bounds::new(rt.alloc())?;
        for _ in 0..2 {
            one.make();
            other.make();
        }
        let up = [least(0, 2), most(1, 9), same(0, 1)];
        let down = [same(0, 1), most(1, 9), least(0, 2)];
        tell_in_two_orders(&mut one, &mut other, &up, &down);
        assert_eq!(rt; one.least(1), other.least(1));
        assert_eq!(rt; one.greatest(0), Some(9));
        let (told, asked) = tell_and_ask(&mut other, most(0, 2));
        assert_eq!(rt; told, Told::Kept);
        assert_eq!(rt; asked, true);
        Ok(())
    }
}
