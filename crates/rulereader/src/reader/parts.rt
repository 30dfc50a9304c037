// Reads parts of which several stand in a row.
ghost use Rattle.std.specs.Prelude.{ℕ, ◌≡◌, false, map};
ghost use Rattle.std.specs.Range.{range_inclusive_start, range_inclusive_end, range_inclusive_exhausted};
ghost use Rattle.rules.specs.Parse.{Parser, list, many};
ghost use Rattle.rulereader.specs.Reads.{Loads};

use crate::reader::Reader;
use rules::LoadRefusal;
use std::ops::RangeInclusive;

/// How to read one of several parts in a row.
pub trait Production {
    type Part: Drop;

    ghost Seen: { Type 0 };

    ghost view: { Self.Part → Seen };

    ghost parser: { Self → Parser Seen };

    fn read(&self, reader: &mut Reader<'_>) -> Result<Self::Part, LoadRefusal>
        ensures { Loads view (parser self.now) reader.old result reader.new };
}

impl Reader<'_> {
    /// `count` parts in a row.
    pub(crate) fn parts<P: Production>(
        &mut self,
        production: &P,
        count: usize,
    ) -> Result<Vec<P::Part>, LoadRefusal>
        ensures { Loads (λ v. map P.Production.view v.items) (many count (P.Production.parser production.now)) self.old result self.new }
    {
        let mut all = Vec::with_capacity(self.alloc, count)?;
        for _ in 0..count {
            let part = production.read(self)?;
            all.push_reserved(part);
        }
        Ok(all)
    }

    /// A count in a range, and so many parts.
    pub(crate) fn list<P: Production>(
        &mut self,
        production: &P,
        counts: RangeInclusive<u32>,
    ) -> Result<Vec<P::Part>, LoadRefusal>
        requires { range_inclusive_exhausted counts ≡ false }
        ensures { Loads (λ v. map P.Production.view v.items) (list (range_inclusive_start counts) (range_inclusive_end counts) (P.Production.parser production.now)) self.old result self.new }
    {
        let count = self.ranged(counts)?;
        self.parts(production, count as usize)
    }
}
