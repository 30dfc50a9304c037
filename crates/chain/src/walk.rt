ghost use Rattle.std.specs.Prelude.{◌≡◌, ◌<◌, vec_len};
ghost use Rattle.std.specs.Option.{ForSome};
ghost use Rattle.std.specs.Iterator.{at_most};
ghost use Rattle.chain.specs.Chains.{Steps, left};

use crate::ChainTable;
use table::row::Row;

/// What is left of a chain: its rows by rising identifier, each with its place.
#[derive(Drop)]
pub(crate) struct Chain<'a> {
    pub(crate) table: &'a ChainTable,
    pub(crate) at: Option<usize>,
    ghost within: { ForSome at (λ k. k < vec_len table.now.rows.items) },
}

impl<'a> Iterator for Chain<'a> {
    type Item = (usize, Row);

    ghost next_gives = { λ c r d. (d.table ≡ c.table) × Steps c.table.now.rows.items.items c.at r d.at };

    ghost remaining = { λ c. at_most (left c.table.now.rows.items.items c.at) };

    fn next(&mut self) -> Option<(usize, Row)> {
        let place = self.at?;
        let (row, rest) = self.table.stand(place);
        self.at = rest;
        Some((place, row))
    }
}
