// Bytes to a record.
ghost use Rattle.record.specs.WellFormed.{by_letter, reading, OnlySpelling};
ghost use Rattle.record.specs.Writing.{fields_from, letter_of};
ghost use Rattle.std.specs.Prelude.{◌≡◌, IfSome};

use crate::entry::Record;
use crate::fields::Fields;

/// The record of this letter with these fields, unless the letter is unknown or a field that it does not use is
/// not zero.
fn by_letter(letter: u8, fields: Fields) -> Option<Record>
    ensures answer { result ≡ by_letter letter fields }
    ensures same_letter { IfSome result (λ said. letter ≡ letter_of said) }
    ensures same_fields { IfSome result (λ said. fields ≡ fields_from said) }
{
    let said = match letter {
        b'P' => Record::Price(fields.into()),
        b'L' => Record::Listing { code: fields.code },
        b'O' => Record::Opening { date: fields.date },
        b'B' => Record::Bought(fields.into()),
        b'S' => Record::Sold(fields.into()),
        b'K' => Record::Strike,
        _ => return None,
    };
    // What the record is written with has zero in each field that its letter does not use.
    (said.fields() == fields).then_some(said)
}

impl Record {
    /// What the bytes say, or `None` where they are malformed: of another length than 32, of an unknown letter,
    /// or with a byte other than zero where the letter uses none.
    pub fn read(bytes: &[u8]) -> Option<Record>
        ensures answer { result ≡ reading bytes.now }
        ensures only_spelling { OnlySpelling bytes.now result }
    {
        let [letter, 0, 0, 0, rest @ ..] = bytes else {
            return None;
        };
        let fields = Fields::from_rest(rest)?;
        by_letter(*letter, fields)
    }
}
