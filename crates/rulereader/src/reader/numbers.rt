// Reads numbers, values, terms and primitives.
ghost use Rattle.std.specs.Prelude.{ℕ, ◌≡◌, ◌+◌, ◌<◌, ◌≤◌, false, IfOk};
ghost use Rattle.rules.specs.Parse.{byte, number, ranged, index, value, term, primitive, guard, head_counts};
ghost use Rattle.std.specs.Range.{range_inclusive_start, range_inclusive_end, range_inclusive_exhausted};
ghost use Rattle.rules.specs.Kinds.{primitive_kind_number};
ghost use Rattle.rulereader.specs.Reads.{Reads, ReadsAs};

use crate::reader::Reader;
use rules::{Kind, LoadRefusal, PrimitiveKind, TermKind, code_value};
use std::ops::RangeInclusive;
use terms::{Primitive, Term};

impl Reader<'_> {
    /// The next byte.
    fn byte(&mut self) -> Result<u8, LoadRefusal>
        ensures { Reads byte self.old result self.new }
    {
        let b = *self.src.get(self.pos).ok_or(LoadRefusal::Ended(self.pos))?;
        self.pos += 1;
        Ok(b)
    }

    /// A number: one to three bytes of seven bits each, lowest first.
    pub(crate) fn number(&mut self) -> Result<u32, LoadRefusal>
        ensures below { IfOk result (λ n. n < 2_097_152) }
        ensures reads { Reads number self.old result self.new }
    {
        let place = self.pos;
        let first = self.byte()?;
        if first < 128 {
            return Ok(u32::from(first));
        }
        let second = self.byte()?;
        if second == 0 {
            return Err(LoadRefusal::Malformed(place));
        }
        if second < 128 {
            return Ok(u32::from(first) - 128 + 128 * u32::from(second));
        }
        let third = self.byte()?;
        if third == 0 || third >= 128 {
            return Err(LoadRefusal::Malformed(place));
        }
        Ok(u32::from(first) - 128 + 128 * (u32::from(second) - 128) + 16_384 * u32::from(third))
    }

    /// A count or a value's code, in a range.
    pub(crate) fn ranged(&mut self, range: RangeInclusive<u32>) -> Result<u32, LoadRefusal>
        requires { range_inclusive_exhausted range ≡ false }
        ensures inside { IfOk result (λ n. (range_inclusive_start range ≤ n) × (n ≤ range_inclusive_end range)) }
        ensures reads { Reads (ranged (range_inclusive_start range) (range_inclusive_end range)) self.old result self.new }
    {
        let place = self.pos;
        let n = self.number()?;
        if !range.contains(&n) {
            return Err(LoadRefusal::OutOfRange(place));
        }
        Ok(n)
    }

    /// The number of one of `count` symbols or slots, from 0.
    pub(crate) fn index(&mut self, count: u8) -> Result<u8, LoadRefusal>
        ensures below { IfOk result (λ n. n < count) }
        ensures reads { Reads (index count) self.old result self.new }
    {
        let place = self.pos;
        let n = self.number()?;
        if n >= u32::from(count) {
            return Err(LoadRefusal::Absent(place));
        }
        Ok(n as u8)
    }

    /// A value, by its code.
    fn value(&mut self) -> Result<i32, LoadRefusal>
        ensures { Reads value self.old result self.new }
    {
        let code = self.ranged(0..=2_000_000)?;
        Ok(code_value(code))
    }

    /// A kind, by its number.
    pub(crate) fn kind<K: Kind>(&mut self) -> Result<K, LoadRefusal>
        ensures { ReadsAs K.Kind.number (ranged 0 K.Kind.most) self.old result self.new }
    {
        let place = self.pos;
        let number = self.number()?;
        K::try_from(number).map_err(|_| LoadRefusal::OutOfRange(place))
    }

    /// An operand of a rule over `slots` slots.
    pub(crate) fn term(&mut self, slots: u8) -> Result<Term, LoadRefusal>
        ensures { Reads (term slots) self.old result self.new }
    {
        match self.kind()? {
            TermKind::Value => Ok(Term::Value(self.value()?)),
            TermKind::Slot => Ok(Term::Slot(self.index(slots)?)),
        }
    }

    /// A primitive, whose kind is read already.
    pub(crate) fn primitive(
        &mut self,
        kind: PrimitiveKind,
        slots: u8,
    ) -> Result<Primitive<Term>, LoadRefusal>
        ensures { Reads (primitive slots (primitive_kind_number kind)) self.old result self.new }
    {
        let left = self.term(slots)?;
        match kind {
            PrimitiveKind::Same => Ok(Primitive::Same(left, self.term(slots)?)),
            PrimitiveKind::Least => Ok(Primitive::Least(left, self.value()?)),
            PrimitiveKind::Most => Ok(Primitive::Most(left, self.value()?)),
        }
    }

    /// A guard over `slots` slots.
    pub(crate) fn guard(&mut self, slots: u8) -> Result<Primitive<Term>, LoadRefusal>
        ensures { Reads (guard slots) self.old result self.new }
    {
        let kind = self.kind()?;
        self.primitive(kind, slots)
    }

    /// How many heads are kept, and how many removed.
    pub(crate) fn head_counts(&mut self) -> Result<(u8, u8), LoadRefusal>
        ensures few { IfOk result (λ p. p.0 + p.1 ≤ 3) }
        ensures reads { Reads head_counts self.old result self.new }
    {
        let kept = self.number()?;
        let place = self.pos;
        let removed = self.number()?;
        let heads = kept + removed;
        if !(1..=3).contains(&heads) {
            return Err(LoadRefusal::OutOfRange(place));
        }
        Ok((kept as u8, removed as u8))
    }
}
