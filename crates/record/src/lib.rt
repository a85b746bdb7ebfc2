// The 32-byte record of a day file: taken apart, made, and checked for a C host.
#![tactic(auto)]

mod contract;
mod entry;
mod fields;
mod host;
mod quote;
mod reading;
mod writing;

pub use contract::Contract;
pub use entry::Record;
pub use host::jaswirku_check_record;
pub use quote::Quote;
