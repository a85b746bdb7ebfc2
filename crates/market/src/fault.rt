// What the market refuses.
ghost use Rattle.market.specs.Refusal.{market_number, market_code};
ghost use Rattle.market.specs.declared.fault.MarketFault.TheVariants.{Figure, Memory};
ghost use Rattle.market.specs.declared.fault.RowFault.TheVariants.{Memory as RowMemory};
ghost use Rattle.std.specs.Prelude.{◌≡◌};

use figure::FigureFault;
use std::alloc::AllocError;

/// What is wrong with a price that is to follow another.
#[derive(Clone, Copy, PartialEq, Eq, Debug)]
pub enum PriceFault {
    /// It lies outside 1 to 800,000 yen.
    OutsideLimits,
    /// It is above twice the former price.
    AboveTwice,
}

/// Why no row is made of a run of prices. The book gives these causes their numbers.
#[derive(Clone, Copy, PartialEq, Eq, Debug)]
pub enum RowFault {
    /// No issue has code 0.
    Code,
    /// The run has not 2 to 121 prices, or holds another issue.
    Run,
    /// A price of the issue is at fault.
    Price { code: u32, fault: PriceFault },
    /// There is no memory.
    Memory,
}

/// Why a call of the market is refused.
#[derive(Clone, Copy, PartialEq, Eq, Debug)]
pub enum MarketFault {
    /// A cover was refused.
    Figure(FigureFault),
    /// No issue has code 0.
    Code { code: u32 },
    /// The price lies outside 1 to 800,000 yen.
    Price { code: u32 },
    /// The issue is not designated.
    NotDesignated { code: u32 },
    /// 16 other issues are designated.
    Full,
    /// There is no memory.
    Memory,
}

impl MarketFault {
    /// The refusal's number; want of memory has none.
    // A rule of the project: each refusal has a number, and each layer tells it in this form. Within, the fault itself is
    // passed on.
    pub fn number(self) -> Option<u8>
        ensures { result ≡ market_number self }
    {
        match self {
            MarketFault::Figure(fault) => Some(fault.number()),
            MarketFault::Code { .. } => Some(15),
            MarketFault::Price { .. } => Some(18),
            MarketFault::NotDesignated { .. } => Some(20),
            MarketFault::Full => Some(29),
            MarketFault::Memory => None,
        }
    }

    /// The code that the refusal names.
    pub fn named_code(self) -> Option<u32>
        ensures { result ≡ market_code self }
    {
        match self {
            MarketFault::Code { code }
            | MarketFault::Price { code }
            | MarketFault::NotDesignated { code } => Some(code),
            MarketFault::Figure(_) | MarketFault::Full | MarketFault::Memory => None,
        }
    }
}

impl From<FigureFault> for MarketFault {
    ghost from_gives = { λ f r. r ≡ Figure f };

    fn from(fault: FigureFault) -> MarketFault {
        MarketFault::Figure(fault)
    }
}

impl From<AllocError> for MarketFault {
    ghost from_gives = { λ _ r. r ≡ Memory };

    fn from(_e: AllocError) -> MarketFault {
        MarketFault::Memory
    }
}

impl From<AllocError> for RowFault {
    ghost from_gives = { λ _ r. r ≡ RowMemory };

    fn from(_e: AllocError) -> RowFault {
        RowFault::Memory
    }
}
