// Examples of rule files, as tests.
#![tactic(auto)]

#[cfg(test)]
mod tests {
    use listing::Listing;
    use rulefile::{WriteRefusal, load};
    use rules::{ADD_KIND, ItemKind, PrimitiveKind, TermKind, UnknownKind};
    use std::test::Fail;

    // One symbol of no arguments, and no rule.
    const SMALL: [u8; 7] = [67, 72, 82, 49, 1, 0, 0];

    // Symbols of 0, 1 and 4 arguments; rules with kept heads, with removed heads, with both, and three heads.
    const FORMS: [u8; 77] = [
        67, 72, 82, 49, 3, 0, 1, 4, 4, //
        1, 0, 0, 0, 0, 1, 3, 1, 0, 13, //
        0, 1, 1, 2, 1, 1, 0, 9, 2, 1, 0, 128, 137, 122, 0, 0, //
        2, 1, 0, 2, 1, 1, 0, 1, 4, 0, 6, 2, 3, //
        3, 2, 1, 0, 1, 1, 1, 5, 1, 6, 0, 1, 5, 0, 255, 136, 122, 2, 1, 6, 0, //
        0, 3, 0, 0, 0, 0, 0, 0,
    ];

    #[test]
    fn a_short_buffer_is_refused_untouched(rt: HostRuntime) -> Result<(), Fail> {
        let rules = load(rt.alloc(), &SMALL)?;
        let mut out = [9u8; 6];
        assert_eq!(rt; rules.write(&mut out), Err(WriteRefusal::ShortBuffer));
        assert_eq!(rt; WriteRefusal::ShortBuffer.number(), 31);
        assert!(rt; out == [9, 9, 9, 9, 9, 9]);
        Ok(())
    }

    #[test]
    fn bytes_after_the_file_are_kept(rt: HostRuntime) -> Result<(), Fail> {
        let rules = load(rt.alloc(), &SMALL)?;
        let mut out = [9u8; 9];
        assert_eq!(rt; rules.write(&mut out), Ok(7));
        assert!(rt; out == [67, 72, 82, 49, 1, 0, 0, 9, 9]);
        Ok(())
    }

    #[test]
    fn every_form_of_a_rule_is_listed(rt: HostRuntime) -> Result<(), Fail> {
        let rules = load(rt.alloc(), &FORMS)?;
        let listing = Listing { rules: &rules };
        let text = format!(in rt.alloc(); "{listing}")?;
        assert_eq!(rt;
            text.as_str(),
            ":- use_module(library(chr)).\n:- chr_constraint c0/0, c1/1, c2/4.\nr1 @ c0 ==> c1(-7).\nr2 @ c1(X0) <=> X0 >= -5, X0 =< 1000000 | true.\nr3 @ c0, c2(X0, X1, X2, X3) \\ c1(X4) <=> X4 == 3 | c2(X0, X1, X5, X6), X5 = -1000000, X6 =< 0.\nr4 @ c0, c0, c0 <=> true.\n"
        );
        Ok(())
    }

    #[test]
    fn a_refusal_is_shown_by_number_and_place(rt: HostRuntime) -> Result<(), Fail> {
        let Err(refusal) = load(rt.alloc(), &[67, 72, 82, 49, 128, 0]) else {
            return Err(Fail::new("loaded"));
        };
        let text = format!(in rt.alloc(); "{refusal}")?;
        assert_eq!(rt; text.as_str(), "4 4");
        Ok(())
    }

    #[test]
    fn a_write_refusal_is_shown_by_its_number(rt: HostRuntime) -> Result<(), Fail> {
        let refusal = WriteRefusal::ShortBuffer;
        let text = format!(in rt.alloc(); "{refusal}")?;
        assert_eq!(rt; text.as_str(), "31");
        Ok(())
    }

    #[test]
    fn kinds_are_made_from_their_numbers(rt: HostRuntime) -> Result<(), Fail> {
        assert_eq!(rt; TermKind::try_from(1), Ok(TermKind::Slot));
        assert_eq!(rt; PrimitiveKind::try_from(2), Ok(PrimitiveKind::Most));
        assert_eq!(rt;
            ItemKind::try_from(0),
            Ok(ItemKind::Tell(PrimitiveKind::Same))
        );
        assert_eq!(rt; ItemKind::try_from(ADD_KIND), Ok(ItemKind::Add));
        assert_eq!(rt; PrimitiveKind::try_from(ADD_KIND), Err(UnknownKind(3)));
        let text = format!(in rt.alloc(); "{}", UnknownKind(3))?;
        assert_eq!(rt; text.as_str(), "3 is no kind");
        Ok(())
    }
}
