// The lines that the program prints.
ghost use Rattle.std.specs.Prelude.{◌≡◌, ◌+◌, ◌*◌, ◌/◌};

use crate::moves::{CoveringMove, NoMove};
use crate::numbers::{Date, Grouped, Percentage};
use crate::runs::{ListedRow, NoRow};
use figure::{FigureFault, Ratio};
use record::{Contract, Quote, Record};
use std::fmt;

/// A contract in words, after what was done.
fn write_contract<W: fmt::Write>(
    f: &mut fmt::Formatter<W>,
    done: &str,
    contract: Contract,
) -> fmt::Result {
    let code = contract.code;
    let quantity = Grouped(u64::from(contract.quantity));
    let money = Grouped(contract.money);
    let settlement = Date(contract.settlement);
    write!(
        f,
        "{done} {quantity} of issue {code} for {money} yen, settling {settlement}"
    )
}

/// A record in words.
#[derive(Clone, Copy)]
pub struct InWords(pub Record);

impl fmt::Display for InWords {
    fn fmt<W: fmt::Write>(&self, f: &mut fmt::Formatter<W>) -> fmt::Result {
        match self.0 {
            Record::Price(Quote { code, price }) => {
                let price = Grouped(u64::from(price));
                write!(f, "price of issue {code}: {price} yen")
            }
            Record::Listing { code } => write!(f, "list issue {code}"),
            Record::Opening { date } => {
                let date = Date(date);
                write!(f, "open the day {date}")
            }
            Record::Bought(contract) => write_contract(f, "bought", contract),
            Record::Sold(contract) => write_contract(f, "sold", contract),
            Record::Strike => write!(f, "strike the day and serve its notice"),
        }
    }
}

/// A record that is malformed, or too short to be one.
// Refusal 10 arises in the file, which has no type for its faults yet.
#[derive(Clone, Copy)]
pub struct Malformed {
    pub length: usize,
}

impl fmt::Display for Malformed {
    fn fmt<W: fmt::Write>(&self, f: &mut fmt::Formatter<W>) -> fmt::Result {
        let length = self.length;
        if length < 32 {
            write!(f, "refusal 10: a short record of {length} bytes")
        } else {
            write!(f, "refusal 10: a malformed record")
        }
    }
}

/// A ratio in hundredths of a percent, rounded to the nearest, a half up.
fn hundredths_of_percent(ratio: Ratio) -> u64
    ensures { result ≡ (ratio.numerator * 20000 + ratio.denominator) / (2 * ratio.denominator) }
{
    (u64::from(ratio.numerator) * 20_000 + ratio.denominator) / (2 * ratio.denominator)
}

impl fmt::Display for CoveringMove {
    fn fmt<W: fmt::Write>(&self, f: &mut fmt::Formatter<W>) -> fmt::Result {
        let far = self.ratio.numerator;
        let from = self.ratio.denominator;
        let percentage = Percentage(hundredths_of_percent(self.ratio));
        let not_above = self.not_above;
        let days = self.days;
        write!(
            f,
            "covering move {far}/{from} ({percentage}), with {not_above} of {days} days not above it"
        )
    }
}

impl fmt::Display for NoMove {
    fn fmt<W: fmt::Write>(&self, f: &mut fmt::Formatter<W>) -> fmt::Result {
        match *self {
            NoMove::TooFew => write!(f, "two prices make a move"),
            NoMove::ZeroPrice => write!(f, "a move starts from a price of zero"),
            NoMove::Cover(fault) => {
                let number = fault.number();
                let cause = match fault {
                    FigureFault::Percent => "a percent outside 1 to 100",
                    FigureFault::Window => "more than 4,096 moves",
                };
                write!(f, "refusal {number}: {cause}")
            }
            NoMove::Memory => write!(f, "no memory is left"),
        }
    }
}

impl fmt::Display for ListedRow {
    fn fmt<W: fmt::Write>(&self, f: &mut fmt::Formatter<W>) -> fmt::Result {
        let prices = self.prices;
        let covering = self.covering;
        write!(f, "row of {prices} prices: {covering}")
    }
}

impl fmt::Display for NoRow {
    fn fmt<W: fmt::Write>(&self, f: &mut fmt::Formatter<W>) -> fmt::Result {
        match *self {
            NoRow::OtherIssue { code } => write!(
                f,
                "no row: its run holds a price of issue {code}"
            ),
            NoRow::NoCoveringMove { prices, cause } => write!(
                f,
                "no covering move (prices in its run: {prices}): {cause}"
            ),
            NoRow::Memory(e) => write!(f, "{e}"),
        }
    }
}
