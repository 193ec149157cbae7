use crate::{Keyword, LexFault, ScanFault, Word, scan, tokens};
use std::process::Abort;
use std::test::Fail;

fn fault_of(rt: &HostRuntime, line: &[u8]) -> Option<LexFault> {
    if line.len() > 100 {
        return None;
    }
    match tokens(rt.alloc(), line) {
        Ok(_) => None,
        Err(fault) => Some(fault),
    }
}

fn is_key(word: &Word, key: Keyword) -> bool {
    match word {
        Word::Key(k) => *k == key,
        _ => false,
    }
}

fn is_number(word: &Word, n: u64) -> bool {
    match word {
        Word::Number(m) => *m == n,
        _ => false,
    }
}

fn is_text(word: &Word, text: &[u8]) -> bool {
    match word {
        Word::Text(t) => t.as_slice() == text,
        _ => false,
    }
}

#[test]
fn faults(rt: HostRuntime) {
    assert_eq!(rt;
        fault_of(&rt, b"'ab"),
        Some(LexFault::OpenText { place: 1 })
    );
    assert_eq!(rt; fault_of(&rt, b"\t"), Some(LexFault::BadByte { place: 1 }));
    assert_eq!(rt;
        fault_of(&rt, b"a 'b\tc'"),
        Some(LexFault::BadByte { place: 5 })
    );
    assert_eq!(rt;
        fault_of(&rt, b"a 'b\tc"),
        Some(LexFault::OpenText { place: 3 })
    );
    assert_eq!(rt;
        fault_of(&rt, b"v < 18446744073709551616"),
        Some(LexFault::BadByte { place: 5 })
    );
    assert_eq!(rt; fault_of(&rt, b"v <= 18446744073709551615 ;"), None);
}

#[test]
fn words(rt: HostRuntime) -> Result<(), Fail> {
    let all = tokens(rt.alloc(), b"SeLECT 'it''s' 007x").map_err(|_| "fault")?;
    assert_eq!(rt; all.len(), 4);
    assert!(rt; is_key(&all.get(0).ok_or("none")?.word, Keyword::Select));
    assert!(rt; is_text(&all.get(1).ok_or("none")?.word, b"it's"));
    assert!(rt; is_number(&all.get(2).ok_or("none")?.word, 7));
    assert_eq!(rt; all.get(2).ok_or("none")?.from, 15);
    assert_eq!(rt; all.get(2).ok_or("none")?.to, 18);
    Ok(())
}

fn is_mark(word: &Word, a: u8, b: u8) -> bool {
    match word {
        Word::Mark(c, d) => *c == a && *d == b,
        _ => false,
    }
}

#[test]
fn marks(rt: HostRuntime) -> Result<(), Fail> {
    let all = tokens(rt.alloc(), b"<=<>>=< >=,").map_err(|_| "fault")?;
    assert_eq!(rt; all.len(), 6);
    assert!(rt; is_mark(&all.get(0).ok_or("none")?.word, b'<', b'='));
    assert!(rt; is_mark(&all.get(1).ok_or("none")?.word, b'<', b'>'));
    assert!(rt; is_mark(&all.get(2).ok_or("none")?.word, b'>', b'='));
    assert!(rt; is_mark(&all.get(3).ok_or("none")?.word, b'<', 0));
    assert!(rt; is_mark(&all.get(5).ok_or("none")?.word, b',', 0));
    Ok(())
}

#[test]
fn stops(rt: HostRuntime) -> Result<(), Fail> {
    let all = scan(rt.alloc(), b"SELEC 'a\tb'", 7).map_err(|_| "memory")?;
    assert_eq!(rt; all.tokens.len(), 1);
    assert_eq!(rt; all.fault, Some(ScanFault::BadByte { from: 6, place: 9 }));
    let front = scan(rt.alloc(), b"SELEC 'a\tb'", 6).map_err(|_| "memory")?;
    assert_eq!(rt; front.tokens.len(), 1);
    assert_eq!(rt; front.fault, None);
    Ok(())
}
