// The fields behind a record's letter and its three zero bytes.
ghost use Rattle.record.specs.Layout.{fields_at};
ghost use Rattle.record.specs.WellFormed.{quote_in, contract_in};
ghost use Rattle.record.specs.Writing.{quote_fields, contract_fields, field_bytes};
ghost use Rattle.std.specs.Prelude.{◌≡◌, length, SomeIff, IfSome};

use crate::contract::Contract;
use crate::quote::Quote;

/// A record's fields, used by its letter or not.
#[derive(Clone, Copy, PartialEq, Eq, Default)]
pub struct Fields {
    pub code: u32,
    pub date: u32,
    /// A price or a quantity.
    pub units: u32,
    pub money: u64,
    /// Used by no letter.
    pub spare: u64,
}

impl Fields {
    /// The fields in the 28 bytes that remain of a record. No other bytes spell them.
    pub fn from_rest(rest: &[u8]) -> Option<Fields>
        ensures answer { SomeIff result (length rest.now ≡ 28) (fields_at rest.now 0) }
        ensures only_spelling { IfSome result (λ fields. rest.now ≡ field_bytes fields) }
    {
        let (code, rest) = rest.split_first_chunk::<4>()?;
        let (date, rest) = rest.split_first_chunk::<4>()?;
        let (units, rest) = rest.split_first_chunk::<4>()?;
        let (money, rest) = rest.split_first_chunk::<8>()?;
        let (spare, []) = rest.split_first_chunk::<8>()? else {
            return None;
        };
        Some(Fields {
            code: u32::from_be_bytes(*code),
            date: u32::from_be_bytes(*date),
            units: u32::from_be_bytes(*units),
            money: u64::from_be_bytes(*money),
            spare: u64::from_be_bytes(*spare),
        })
    }
}

impl From<Fields> for Quote {
    ghost from_gives = { λ fields quote. quote ≡ quote_in fields };

    fn from(fields: Fields) -> Quote {
        Quote {
            code: fields.code,
            price: fields.units,
        }
    }
}

impl From<Fields> for Contract {
    ghost from_gives = { λ fields contract. contract ≡ contract_in fields };

    fn from(fields: Fields) -> Contract {
        Contract {
            code: fields.code,
            settlement: fields.date,
            quantity: fields.units,
            money: fields.money,
        }
    }
}

impl From<Quote> for Fields {
    ghost from_gives = { λ quote fields. fields ≡ quote_fields quote };

    fn from(quote: Quote) -> Fields {
        Fields {
            code: quote.code,
            units: quote.price,
            ..Fields::default()
        }
    }
}

impl From<Contract> for Fields {
    ghost from_gives = { λ contract fields. fields ≡ contract_fields contract };

    fn from(contract: Contract) -> Fields {
        Fields {
            code: contract.code,
            date: contract.settlement,
            units: contract.quantity,
            money: contract.money,
            ..Fields::default()
        }
    }
}
