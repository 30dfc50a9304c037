// Finding the constraints that a telling wakes.
ghost use Rattle.lists.specs.Views.{woken_of, Stays};
ghost use Rattle.lists.specs.Wakings.{OpenIn, UnfixedIn, Found};

use crate::lists::{Lists, WAITING};
use crate::reserved::Reserved;
use table::partner::PartnerTable;
use table::row::PLACES;
use tablelaws::visits::Identifiers;
use terms::Operand;
use theory::interface::Theory;

/// Whether the constraint has a variable at that place, counted from 0, that is not fixed.
fn is_open<T: Theory, P: PartnerTable>(theory: &T, table: &P, identifier: u32, place: usize) -> bool
    ensures { OpenIn T.Theory P.PartnerTable theory.now table.now result identifier place }
{
    match table.argument(identifier, place) {
        Some(Operand::Variable(x)) => !theory.fixed(x),
        _ => false,
    }
}

/// Whether the constraint lives and has a variable that is not fixed.
fn is_unfixed<T: Theory, P: PartnerTable>(theory: &T, table: &P, identifier: u32) -> bool
    ensures { UnfixedIn T.Theory P.PartnerTable theory.now table.now result identifier }
{
    (0..PLACES).any(|place| is_open(theory, table, identifier, place))
}

/// Counts the constraints to wake, and writes the first 512 of them down, smallest identifier first.
fn collect<T: Theory, P: PartnerTable>(
    theory: &T,
    table: &P,
    woken: &mut Reserved<u32, WAITING>,
) -> usize
    ensures { Found T.Theory P.PartnerTable theory.now table.now result woken.new.items.items }
{
    woken.clear();
    let mut count = 0;
    for identifier in Identifiers::of(table, None, None) {
        if is_unfixed(theory, table, identifier) {
            woken.push(identifier);
            count += 1;
        }
    }
    count
}

impl Lists {
    /// Finds the constraints to wake, of which it keeps the first 512, and says how many they are.
    pub fn find_woken<T: Theory, P: PartnerTable>(&mut self, theory: &T, table: &P) -> usize
        ensures found { Found T.Theory P.PartnerTable theory.now table.now result (woken_of self.new) }
        ensures stays { Stays self.old self.new }
    {
        collect(theory, table, &mut self.woken)
    }
}
