//! The text of each refusal.
use crate::expected::expect_octets;
use octets::Refusal;
use std::test::Fail;

#[test]
fn a_refusal_prints_its_number_and_its_name(rt: HostRuntime) -> Result<(), Fail> {
    for (refusal, text) in [
        (Refusal::Usage, "1 Usage"),
        (Refusal::Read, "2 Read"),
        (Refusal::Write, "3 Write"),
        (Refusal::Memory, "4 Memory"),
        (Refusal::Random, "5 Random"),
        (Refusal::Base64, "6 Base64"),
        (Refusal::Json, "7 Json"),
        (Refusal::Number, "8 Number"),
        (Refusal::Key, "9 Key"),
        (Refusal::Form, "10 Form"),
        (Refusal::Header, "11 Header"),
        (Refusal::Unsupported, "12 Unsupported"),
        (Refusal::NoAlgorithm, "13 NoAlgorithm"),
        (Refusal::KeyDoesNotFit, "14 KeyDoesNotFit"),
        (Refusal::Limit, "15 Limit"),
        (Refusal::NotCompact, "16 NotCompact"),
        (Refusal::NotOpened, "17 NotOpened"),
    ] {
        let printed = refusal.to_string(rt.alloc())?;
        expect_octets(&rt, printed.as_bytes(), text.as_bytes());
    }
    Ok(())
}
