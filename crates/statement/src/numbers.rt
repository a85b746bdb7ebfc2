// Numbers as a person reads them.
use std::fmt;

/// A number with its digits grouped by thousands, as 1,234,567.
#[derive(Clone, Copy)]
pub struct Grouped(pub u64);

fn write_grouped<W: fmt::Write>(n: u64, f: &mut fmt::Formatter<W>) -> fmt::Result {
    if n < 1000 {
        return write!(f, "{n}");
    }
    write_grouped(n / 1000, f)?;
    let group = n % 1000;
    write!(f, ",{group:03}")
}

impl fmt::Display for Grouped {
    fn fmt<W: fmt::Write>(&self, f: &mut fmt::Formatter<W>) -> fmt::Result {
        write_grouped(self.0, f)
    }
}

/// A number YYYYMMDD as a date, as 2009-04-01.
#[derive(Clone, Copy)]
pub struct Date(pub u32);

impl fmt::Display for Date {
    fn fmt<W: fmt::Write>(&self, f: &mut fmt::Formatter<W>) -> fmt::Result {
        let year = self.0 / 10_000;
        let month = self.0 / 100 % 100;
        let day = self.0 % 100;
        write!(f, "{year:04}-{month:02}-{day:02}")
    }
}

/// Hundredths of a percent as a percentage with two decimals, as 2.80 percent.
#[derive(Clone, Copy)]
pub struct Percentage(pub u64);

impl fmt::Display for Percentage {
    fn fmt<W: fmt::Write>(&self, f: &mut fmt::Formatter<W>) -> fmt::Result {
        let whole = Grouped(self.0 / 100);
        let hundredths = self.0 % 100;
        write!(f, "{whole}.{hundredths:02} percent")
    }
}
