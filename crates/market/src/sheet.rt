// A sheet of price records.
ghost use Rattle.market.specs.Sheet.{price_in, sheet_price};
ghost use Rattle.std.specs.Prelude.{◌≡◌};

use crate::source::PriceSource;
use record::Record;

/// Bytes taken as records of 32 bytes from the start, a shorter remainder ignored.
/// The first well-formed P record of a code gives its price.
#[derive(Drop)]
pub struct Sheet<'a> {
    pub bytes: &'a [u8],
}

/// The price that a record gives an issue: that of a well-formed P record of its code.
fn price_in(bytes: &[u8], code: u32) -> Option<u32>
    ensures { result ≡ price_in bytes.now code }
{
    // A sheet may hold many records of other letters: they are passed over unread, which takes a quarter of the time.
    if bytes.first() != Some(&b'P') {
        return None;
    }
    match Record::read(bytes) {
        Some(Record::Price(quote)) if quote.code == code => Some(quote.price),
        _ => None,
    }
}

/// The first price that the whole records of a sheet give an issue.
fn first_price(bytes: &[u8], code: u32) -> Option<u32>
    ensures { result ≡ sheet_price bytes.now code }
{
    let (records, _) = bytes.as_chunks::<32>();
    records.iter().find_map(|record| price_in(record, code))
}

impl<'a> PriceSource for Sheet<'a> {
    const LETTER: u8 = b'S';

    ghost means = { λ s. sheet_price s.bytes.now };

    ghost mark = { 83 };

    fn consult(&mut self, code: u32) -> Option<u32> {
        first_price(self.bytes, code)
    }

    fn source_letter(&self) -> u8 {
        Self::LETTER
    }
}
