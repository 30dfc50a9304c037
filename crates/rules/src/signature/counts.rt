// How many symbols, arguments and slots there are.
ghost use Rattle.std.specs.Prelude.{◌≡◌, ◌≤◌, min, length, slice_index};
ghost use Rattle.rules.specs.Books.{slot_count};

use crate::signature::Signature;

impl Signature<'_> {
    /// How many symbols are declared.
    pub fn symbols(&self) -> u8
        ensures { result ≡ length self.now.arities.now }
    {
        self.arities.len() as u8
    }

    /// How many arguments a symbol takes; none, where it is not declared.
    pub fn arity(&self, symbol: u8) -> u8
        ensures value { result ≡ slice_index self.now.arities.now symbol }
        ensures few { result ≤ 4 }
    {
        self.arities.get(symbol as usize).copied().unwrap_or(0)
    }

    /// How many slots heads have together, up to 255.
    pub fn slots(&self, heads: &[u8]) -> u8
        ensures value { result ≡ min (slot_count self.now.arities.now heads.now) 255 }
        ensures few { length heads.now ≤ 3 → (result ≡ slot_count self.now.arities.now heads.now) × (result ≤ 12) }
    {
        let mut slots: u8 = 0;
        for symbol in heads {
            slots = slots.saturating_add(self.arity(*symbol));
        }
        slots
    }
}
