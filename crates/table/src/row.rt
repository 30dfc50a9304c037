ghost use Rattle.std.specs.Prelude.{◌≡◌};
ghost use Rattle.table.specs.Lists.{nth};
ghost use Rattle.table.specs.Nexts.{answers, key_is};
ghost use Rattle.table.specs.Records.{recorded};
ghost use Rattle.table.specs.Rows.{record_of, Made};

use crate::rows::is_fit;
use inplace::InPlace;
use terms::Operand;

/// The most arguments that a record has.
pub const PLACES: usize = 4;

/// A record under its identifier, as a table holds it.
#[derive(Clone, Copy)]
pub struct Row {
    identifier: u32,
    symbol: u8,
    arguments: InPlace<Operand, PLACES>,
}

impl Row {
    /// A row, if that is a record.
    pub(crate) fn new(identifier: u32, symbol: u8, arguments: &[Operand]) -> Option<Row>
        ensures { Made identifier (recorded symbol arguments.now) result }
    {
        if !is_fit(identifier, symbol, arguments) {
            return None;
        }
        let arguments = InPlace::from_slice(arguments)?;
        Some(Row {
            identifier,
            symbol,
            arguments,
        })
    }

    pub fn identifier(&self) -> u32
        ensures { result ≡ self.now.identifier }
    {
        self.identifier
    }

    pub(crate) fn symbol(&self) -> u8
        ensures { result ≡ (record_of self.now).symbol }
    {
        self.symbol
    }

    pub(crate) fn argument(&self, place: usize) -> Option<Operand>
        ensures { result ≡ nth (record_of self.now).arguments place }
    {
        self.arguments.as_slice().get(place).copied()
    }

    /// Whether the row has the symbol, and a key that is the value or open; none given restricts nothing.
    pub fn answers(&self, symbol: Option<u8>, key: Option<i32>) -> bool
        ensures { result ≡ answers symbol key (record_of self.now) }
    {
        let fits_symbol = symbol.is_none_or(|wanted| wanted == self.symbol);
        let fits_key = key.is_none_or(|wanted| self.key_is(wanted));
        fits_symbol && fits_key
    }

    fn key_is(&self, wanted: i32) -> bool
        ensures { result ≡ key_is wanted (record_of self.now).arguments }
    {
        match self.argument(0) {
            Some(Operand::Value(value)) => wanted == value,
            Some(Operand::Variable(_)) | None => true,
        }
    }
}
