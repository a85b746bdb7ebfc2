// The check of a record for a C host, which the crate record_c exports.
ghost use Rattle.record.specs.WellFormed.{reading};
ghost use Rattle.std.specs.Prelude.{◌≡◌, is_some, if◌then◌else◌};

use crate::entry::Record;

/// 0 where the bytes are one well-formed record, and else the refusal's number, 10.
// The C interface wants a number; record_c exports this very function.
pub fn jaswirku_check_record(bytes: &[u8]) -> u32
    ensures { result ≡ (if is_some (reading bytes.now) then 0 else 10) }
{
    if Record::read(bytes).is_some() { 0 } else { 10 }
}
