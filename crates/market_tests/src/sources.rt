ghost use Rattle.std.specs.Prelude.{Some};

use market::{DesignatedList, Joined, MarketFault, PriceSource, Quote, Sheet};
use record::Record;
use std::alloc::{AllocError, Global};
use std::test::Fail;

/// A source that borrows: every issue has the price that it is lent.
#[derive(Drop)]
struct Lent<'a> {
    price: &'a u32,
}

impl<'a> PriceSource for Lent<'a> {
    const LETTER: u8 = b'L';

    ghost means = { λ s code. Some s.price.now };

    ghost mark = { 76 };

    fn consult(&mut self, _code: u32) -> Option<u32> {
        Some(*self.price)
    }

    fn source_letter(&self) -> u8 {
        Self::LETTER
    }
}

/// A price in bytes that their holder goes on to write.
fn price_before_writing(bytes: &mut [u8]) -> Option<u32> {
    let price = Sheet { bytes }.consult(101);
    if let Some(letter) = bytes.first_mut() {
        *letter = b'K';
    }
    price
}

fn price(code: u32, price: u32) -> [u8; 32] {
    Record::Price(Quote { code, price }).write()
}

/// A sheet of four records, of which the second has a byte that no P record uses, and a remainder.
fn sheet_bytes(heap: Global) -> Result<Vec<u8>, AllocError> {
    let mut bytes = Vec::new(heap);
    let mut spoiled = price(102, 500);
    spoiled[31] = 1;
    bytes.extend_from_slice(&price(101, 990))?;
    bytes.extend_from_slice(&spoiled)?;
    bytes.extend_from_slice(&price(102, 510))?;
    bytes.extend_from_slice(&price(101, 995))?;
    bytes.extend_from_slice(b"P\0\0\0\0")?;
    Ok(bytes)
}

#[test]
fn a_sheet_gives_its_first_price(rt: HostRuntime) -> Result<(), Fail> {
    let bytes = sheet_bytes(rt.alloc())?;
    let mut sheet = Sheet {
        bytes: bytes.as_slice(),
    };
    assert_eq!(rt; sheet.consult(101), Some(990), "the first of two");
    assert_eq!(rt; sheet.consult(101), Some(990), "asked again");
    assert_eq!(rt; sheet.consult(102), Some(510), "past a malformed record");
    assert_eq!(rt; sheet.consult(103), None);
    assert_eq!(rt; sheet.source_letter(), b'S');
    assert_eq!(rt; Sheet::LETTER, b'S');
    let short = price(101, 990);
    let mut remainder = Sheet {
        bytes: &short[0..31],
    };
    assert_eq!(rt; remainder.consult(101), None, "a remainder is no record");
    Ok(())
}

#[test]
fn a_sheet_takes_any_price(rt: HostRuntime) {
    let zero = price(7, 0);
    let mut sheet = Sheet { bytes: &zero };
    assert_eq!(rt; sheet.consult(7), Some(0));
    let listing = Record::Listing { code: 7 }.write();
    let mut other = Sheet { bytes: &listing };
    assert_eq!(rt; other.consult(7), None, "another letter");
    let mut empty = Sheet { bytes: &[] };
    assert_eq!(rt; empty.consult(7), None);
}

#[test]
fn sixteen_are_designated(rt: HostRuntime) -> Result<(), Fail> {
    let mut list = DesignatedList::new(rt.alloc())?;
    for code in 1..=16 {
        assert_eq!(rt; list.set(code, 1000), Ok(()));
    }
    assert_eq!(rt;
        list.set(17, 1000),
        Err(MarketFault::Full),
        "a seventeenth issue"
    );
    assert_eq!(rt; list.consult(17), None);
    assert_eq!(rt;
        list.set(16, 2000),
        Ok(()),
        "replaced where the list is full"
    );
    assert_eq!(rt; list.consult(16), Some(2000));
    assert_eq!(rt; list.remove(5), Ok(()));
    assert_eq!(rt; list.consult(5), None);
    assert_eq!(rt; list.remove(5), Err(MarketFault::NotDesignated { code: 5 }));
    assert_eq!(rt;
        list.set(17, 800_000),
        Ok(()),
        "a removed place is used again"
    );
    assert_eq!(rt; list.consult(17), Some(800_000));
    assert_eq!(rt; list.consult(4), Some(1000));
    assert_eq!(rt; list.consult(6), Some(1000));
    assert_eq!(rt; list.source_letter(), b'D');
    assert_eq!(rt; DesignatedList::LETTER, b'D');
    Ok(())
}

#[test]
fn designating_is_refused_in_order(rt: HostRuntime) -> Result<(), Fail> {
    let mut list = DesignatedList::new(rt.alloc())?;
    for code in 1..=16 {
        assert_eq!(rt; list.set(code, 1000), Ok(()));
    }
    assert_eq!(rt;
        list.set(0, 0),
        Err(MarketFault::Code { code: 0 }),
        "the code is tested first"
    );
    assert_eq!(rt;
        list.set(17, 0),
        Err(MarketFault::Price { code: 17 }),
        "then the price"
    );
    assert_eq!(rt; list.set(1, 800_001), Err(MarketFault::Price { code: 1 }));
    assert_eq!(rt; list.consult(1), Some(1000), "a refusal changes nothing");
    Ok(())
}

#[test]
fn numbers_of_refusals(rt: HostRuntime) {
    assert_eq!(rt; MarketFault::Code { code: 0 }.number(), Some(15));
    assert_eq!(rt; MarketFault::Price { code: 7 }.number(), Some(18));
    assert_eq!(rt; MarketFault::NotDesignated { code: 7 }.number(), Some(20));
    assert_eq!(rt; MarketFault::Full.number(), Some(29));
    assert_eq!(rt; MarketFault::Memory.number(), None);
    assert_eq!(rt;
        MarketFault::NotDesignated { code: 7 }.named_code(),
        Some(7)
    );
    assert_eq!(rt; MarketFault::Full.named_code(), None);
}

#[test]
fn a_sheet_over_a_designated_list(rt: HostRuntime) -> Result<(), Fail> {
    let bytes = sheet_bytes(rt.alloc())?;
    let mut list = DesignatedList::new(rt.alloc())?;
    list.set(101, 1)?;
    list.set(103, 3)?;
    let mut joined = Joined {
        first: Sheet {
            bytes: bytes.as_slice(),
        },
        second: list,
    };
    assert_eq!(rt; joined.consult(101), Some(990), "the first source has it");
    assert_eq!(rt; joined.consult(103), Some(3), "only the second has it");
    assert_eq!(rt; joined.consult(104), None);
    assert_eq!(rt; joined.source_letter(), b'J');
    assert_eq!(rt; Joined::<Sheet<'_>, DesignatedList>::LETTER, b'J');
    let last = price(104, 4);
    let mut nested = Joined {
        first: joined,
        second: Sheet { bytes: &last },
    };
    assert_eq!(rt; nested.consult(103), Some(3));
    assert_eq!(rt; nested.consult(104), Some(4));
    assert_eq!(rt; nested.consult(105), None);
    Ok(())
}

#[test]
fn sources_that_borrow(rt: HostRuntime) {
    let price_of_all = 7;
    let first = price(101, 990);
    let mut joined = Joined {
        first: Sheet { bytes: &first },
        second: Lent {
            price: &price_of_all,
        },
    };
    assert_eq!(rt; joined.consult(101), Some(990));
    assert_eq!(rt; joined.consult(102), Some(7), "the second lends its price");
    assert_eq!(rt; joined.second.source_letter(), b'L');
    let mut written = first;
    assert_eq!(rt; price_before_writing(&mut written), Some(990));
    assert_eq!(rt; written[0], b'K', "the bytes are the holder's again");
}
