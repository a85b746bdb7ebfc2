// The check of a record for a C host, as a static library.
#![tactic(auto)]

ghost use Rattle.record.specs.WellFormed.{reading};
ghost use Rattle.std.specs.Prelude.{◌≡◌, is_some, if◌then◌else◌};

/// 0 where the bytes are one well-formed record, and else the refusal's number, 10.
#[unsafe(no_mangle)]
pub extern "C" fn jaswirku_check_record(bytes: &[u8]) -> u32
    ensures { result ≡ (if is_some (reading bytes.now) then 0 else 10) }
{
    record::jaswirku_check_record(bytes)
}
