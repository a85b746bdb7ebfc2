// A record to its bytes.
ghost use Rattle.record.specs.Writing.{letter_of, fields_from, spelled, spelling};
ghost use Rattle.record.specs.WellFormed.{by_letter, reading};
ghost use Rattle.std.specs.Prelude.{◌≡◌, Some};

use crate::entry::Record;
use crate::fields::Fields;

/// The letter, three zero bytes and the fields.
fn spell(letter: u8, fields: Fields) -> [u8; 32]
    ensures { result ≡ spelled letter fields }
{
    // The places are those of the format, line by line. A cursor that writes would want a case for each field in which
    // no room is left, and none of them ever comes.
    let mut bytes = [0; 32];
    bytes[0] = letter;
    bytes[4..8].copy_from_slice(&fields.code.to_be_bytes());
    bytes[8..12].copy_from_slice(&fields.date.to_be_bytes());
    bytes[12..16].copy_from_slice(&fields.units.to_be_bytes());
    bytes[16..24].copy_from_slice(&fields.money.to_be_bytes());
    bytes[24..32].copy_from_slice(&fields.spare.to_be_bytes());
    bytes
}

impl Record {
    /// The letter that the record begins with.
    fn letter(self) -> u8
        ensures { result ≡ letter_of self }
    {
        match self {
            Record::Price(_) => b'P',
            Record::Listing { .. } => b'L',
            Record::Opening { .. } => b'O',
            Record::Bought(_) => b'B',
            Record::Sold(_) => b'S',
            Record::Strike => b'K',
        }
    }

    /// The record's fields, zero where its letter uses none.
    pub(crate) fn fields(self) -> Fields
        ensures answer { result ≡ fields_from self }
        ensures reads_back { by_letter (letter_of self) result ≡ Some self }
    {
        match self {
            Record::Price(quote) => quote.into(),
            Record::Listing { code } => Fields {
                code,
                ..Fields::default()
            },
            Record::Opening { date } => Fields {
                date,
                ..Fields::default()
            },
            Record::Bought(contract) | Record::Sold(contract) => contract.into(),
            Record::Strike => Fields::default(),
        }
    }

    /// The record's 32 bytes, the only ones that read as it.
    pub fn write(self) -> [u8; 32]
        ensures answer { result ≡ spelling self }
        ensures reads_back { reading result ≡ Some self }
    {
        spell(self.letter(), self.fields())
    }
}
