// The words on a tie and their bytes.
use letter::{Tie, UnknownTie};
use std::test::Fail;

#[test]
fn bytes_of_ties(rt: HostRuntime) {
    for (tie, byte) in [
        (Tie::NoTie, 0),
        (Tie::Before, 1),
        (Tie::At, 2),
        (Tie::After, 3),
    ] {
        assert_eq!(rt; u8::from(tie), byte);
        assert_eq!(rt; Tie::try_from(byte), Ok(tie));
    }
}

#[test]
fn a_byte_of_no_tie(rt: HostRuntime) -> Result<(), Fail> {
    assert_eq!(rt; Tie::try_from(4), Err(UnknownTie(4)));
    let text = format!(in rt.alloc(); "{}", UnknownTie(4))?;
    assert_eq!(rt; text.as_str(), "no word on a tie has the byte 4");
    Ok(())
}
