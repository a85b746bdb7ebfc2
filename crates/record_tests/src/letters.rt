use record::{Contract, Quote, Record, jaswirku_check_record};
use std::process::Abort;

const CONTRACT: Contract = Contract {
    code: 101,
    settlement: 20090406,
    quantity: 100,
    money: 101_000,
};

/// Whether each byte of the record may be changed: `?` it may, `0` it has to be zero, `L` it is the letter.
fn spoiled_only_where_unused(rt: &impl Abort, said: Record, used: &[u8; 32]) {
    let bytes = said.write();
    assert_eq!(rt; Record::read(&bytes), Some(said), "reads back");
    assert_eq!(rt; jaswirku_check_record(&bytes), 0);
    for (place, mark) in used.iter().enumerate() {
        let mut spoiled = bytes;
        spoiled[place] ^= 1;
        let read = Record::read(&spoiled);
        assert_ne!(rt; read, Some(said), "one spelling only");
        assert_eq!(rt; read.is_some(), *mark == b'?', "a spoiled byte");
        assert_eq!(rt;
            jaswirku_check_record(&spoiled) == 0,
            *mark == b'?',
            "for a C host"
        );
    }
}

#[test]
fn prices_and_listings(rt: HostRuntime) {
    spoiled_only_where_unused(
        &rt,
        Record::Price(Quote {
            code: 101,
            price: 990,
        }),
        b"L000????0000????0000000000000000",
    );
    spoiled_only_where_unused(
        &rt,
        Record::Listing { code: 101 },
        b"L000????000000000000000000000000",
    );
}

#[test]
fn days(rt: HostRuntime) {
    spoiled_only_where_unused(
        &rt,
        Record::Opening { date: 20090401 },
        b"L0000000????00000000000000000000",
    );
    spoiled_only_where_unused(&rt, Record::Strike, b"L0000000000000000000000000000000");
}

#[test]
fn contracts(rt: HostRuntime) {
    let bought = Record::Bought(CONTRACT);
    let sold = Record::Sold(CONTRACT);
    spoiled_only_where_unused(&rt, bought, b"L000????????????????????00000000");
    spoiled_only_where_unused(&rt, sold, b"L000????????????????????00000000");
}

#[test]
fn bytes_of_a_contract(rt: HostRuntime) {
    let bytes =
        b"B\0\0\0\0\0\0\x65\x01\x32\x8e\x26\0\0\0\x64\0\0\0\0\0\x01\x8a\x88\0\0\0\0\0\0\0\0";
    assert_eq!(rt; Record::read(bytes), Some(Record::Bought(CONTRACT)));
}

#[test]
fn other_lengths(rt: HostRuntime) {
    assert_eq!(rt; Record::read(&[b'K'; 1]), None, "short");
    assert_eq!(rt; Record::read(&[]), None, "empty");
    let mut long = [0; 33];
    long[0] = b'K';
    assert_eq!(rt; Record::read(&long), None, "long");
    assert_eq!(rt;
        Record::read(&long[0..32]),
        Some(Record::Strike),
        "its first 32 bytes"
    );
}
