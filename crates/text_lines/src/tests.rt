//! Lines and words of a small text.
use crate::{digits, next_kept, three_words, without_return};
use std::test::Fail;

#[test]
fn lines_that_are_kept(rt: HostRuntime) -> Result<(), Fail> {
    let text = b"# a\n\n \t7\t8  9 \r\n  # b\r\n1 2\n3 4 5";
    let first = next_kept(b'#', text, 1, true);
    assert!(rt; matches!(first, Some(_)));
    if let Some(kept) = first {
        assert_eq!(rt; kept.number, 3);
        let words = three_words(without_return(kept.line));
        assert!(rt; matches!(words, Some((b"7", b"8", b"9"))));
        let second = next_kept(b'#', kept.rest, kept.number + 1, true);
        assert!(rt; matches!(second, Some(_)));
        if let Some(kept) = second {
            assert_eq!(rt; kept.number, 5);
            assert!(rt; three_words(kept.line).is_none());
            assert!(rt; next_kept(b'#', kept.rest, 6, false).is_none());
        }
    }
    Ok(())
}

#[test]
fn numbers(rt: HostRuntime) -> Result<(), Fail> {
    assert_eq!(rt; digits(b"0000000000000000000000007"), Some(7));
    assert_eq!(rt; digits(b"18446744073709551616"), Some(u64::MAX));
    assert_eq!(rt; digits(b"+7"), None);
    Ok(())
}
