ghost use Rattle.std.specs.Prelude.{◌≡◌, ◌<◌};

use super::*;
use ossl_base::text::Text;
use std::alloc::{AllocError, Global};
use std::marker::Brand;
use std::sync::ledger::{Blank, Ledger};
use std::test::*;

/// What a query's text prints as, or the place of its fault.
fn shown(alloc: Global, text: &[u8]) -> Result<Text, TextRefused> {
    let query = Query::parse(alloc, text)?;
    Ok(query.copy(alloc)?.print(alloc)?)
}

#[test]
fn texts(rt: HostRuntime) {
    let rows: [(&[u8], &[u8]); 12] = [
        (b"a='Mixed Case', B=x", b"a='Mixed Case',b=x"),
        (b"n=-9223372036854775808", b"n=-9223372036854775808"),
        (b"n=0x1F", b"n=31"),
        (b"", b""),
        (b"   ", b""),
        (b"n=9223372036854775807", b"n=9223372036854775807"),
        (b"n=0777777777777777777777", b"n=9223372036854775807"),
        (b"n=0X7fffFFFFffffffff", b"n=9223372036854775807"),
        (b"n=0", b"n=0"),
        (b" - fips , ?c != \"It's\" ", b"-fips,?c!=\"It's\""),
        (b"a.b_1=Default,c=''", b"a.b_1=default,c=''"),
        (b"a=x'y=z,b", b"a=x'y=z,b=yes"),
    ];
    for (text, want) in rows {
        match shown(rt.alloc(), text) {
            Ok(printed) => assert!(rt; printed.as_slice() == want),
            Err(_) => assert!(rt; false, "refused"),
        }
    }
}

#[test]
fn faults(rt: HostRuntime) {
    let rows: [(&[u8], u64); 20] = [
        (b"a=1,b,A=2", 6),
        (b"n=9223372036854775808", 2),
        (b"a=1,", 4),
        (b"a='x", 2),
        (b"a.", 0),
        (b"n=08", 2),
        (b"?-a", 1),
        (b"a!", 1),
        (b"a=1,a=08", 4),
        (b"a=08,a", 2),
        (b"a='x'y", 5),
        (b"a=1z", 2),
        (b"a=1,  ", 6),
        (b"n=-9223372036854775809", 2),
        (b"n=0x8000000000000000", 2),
        (b"n=01000000000000000000000", 2),
        (b"n=99999999999999999999999999", 2),
        (b"-a=1", 2),
        (b"a,?A", 3),
        (b"a b", 2),
    ];
    for (text, want) in rows {
        assert!(rt;
            shown(rt.alloc(), text).err() == Some(TextRefused::NotInGrammar { place: want })
        );
    }
}

#[test]
fn definitions(rt: HostRuntime) {
    match Definition::parse(rt.alloc(), b"provider=fips,fips") {
        Ok(definition) => match definition.copy(rt.alloc()) {
            Ok(copy) => match copy.print(rt.alloc()) {
                Ok(printed) => assert!(rt;
                    printed.as_slice() == b"provider=fips,fips=yes".as_slice()
                ),
                Err(_) => assert!(rt; false, "no memory"),
            },
            Err(_) => assert!(rt; false, "no memory"),
        },
        Err(_) => assert!(rt; false, "refused"),
    }
    let rows: [(&[u8], u64); 3] = [(b"?a", 0), (b"-a", 0), (b"a!=b", 1)];
    for (text, want) in rows {
        assert!(rt;
            Definition::parse(rt.alloc(), text).err()
                == Some(TextRefused::NotInGrammar { place: want })
        );
    }
}

/// The score of two texts, 99 where one of them is refused, and the steps.
fn scored<L: Ledger>(alloc: Global, blank: Blank, definition: &[u8], query: &[u8]) -> Option<u64>
    requires name { blank.name ≡ L.name }
    requires parts { blank.parts ≡ L.parts }
    requires some { 0 < L.parts }
{
    let mut steps = Steps::<L>::new(blank);
    let Ok(definition) = Definition::parse(alloc, definition) else {
        return Some(99);
    };
    let Ok(query) = Query::parse(alloc, query) else {
        return Some(99);
    };
    score(&definition, &query, &mut steps)
}

#[test]
fn scores(rt: HostRuntime) {
    let rows: [(&[u8], &[u8], Option<u64>); 14] = [
        (b"provider=default", b"p=no", Some(0)),
        (b"provider=default", b"p!=no", None),
        (b"provider=default", b"p!=yes", Some(0)),
        (b"provider=default", b"p=yes", None),
        (b"provider=default", b"?p=no", Some(1)),
        (b"provider=default", b"p!=5", None),
        (b"provider=default", b"p=5", None),
        (b"provider=default", b"?p!=5", Some(0)),
        (b"p=5", b"p!=five", Some(0)),
        (b"p=5", b"p=five", None),
        (b"provider=default", b"-provider", Some(0)),
        (b"v=31", b"?v=0x1F,?v2,?w=no", Some(2)),
        (b"name=Default", b"name='Default'", None),
        (b"", b"", Some(0)),
    ];
    for (definition, query, want) in rows {
        assert!(rt; scored::<Brand>(rt.alloc(), Blank::new(1), definition, query) == want);
    }
}

#[test]
fn merges(rt: HostRuntime) -> Result<(), Fail> {
    let rows: [(&[u8], &[u8], &[u8]); 4] = [
        (b"-fips", b"fips=yes", b""),
        (b"fips=no", b"fips=yes", b"fips=no"),
        (b"?provider=default", b"fips", b"?provider=default,fips=yes"),
        (b"-a,b", b"-c,a=1,d=2,?B=x", b"b=yes,d=2"),
    ];
    for (given, default, want) in rows {
        let given = Query::parse(rt.alloc(), given).ok().ok_or("a query")?;
        let default = Query::parse(rt.alloc(), default).ok().ok_or("a query")?;
        let merged = merge(rt.alloc(), &given, &default)?;
        let merged = merge(rt.alloc(), &merged, &Query::empty(rt.alloc()))?;
        assert!(rt; merged.print(rt.alloc())?.as_slice() == want);
    }
    Ok(())
}

/// A text with a name of `name` bytes and a string of `string` bytes, within quotes or not.
fn sized(alloc: Global, name: usize, string: usize, quoted: bool) -> Result<Vec<u8>, AllocError> {
    let mut text = Vec::new(alloc);
    for _ in 0..name {
        text.push(b'N')?;
    }
    text.push(b'=')?;
    if quoted {
        text.push(b'"')?;
    }
    for _ in 0..string {
        text.push(b'S')?;
    }
    if quoted {
        text.push(b'"')?;
    }
    Ok(text)
}

/// The place of a text's fault as a query, if it has one.
fn fault(alloc: Global, text: &[u8]) -> Result<Option<u64>, &'static str> {
    match Query::parse(alloc, text) {
        Ok(_) => Ok(None),
        Err(TextRefused::NotInGrammar { place }) => Ok(Some(place)),
        Err(TextRefused::NoMemory) => Err("no memory"),
    }
}

#[test]
fn lengths(rt: HostRuntime) -> Result<(), Fail> {
    let rows = [
        (99, 999, false, None),
        (100, 999, false, Some(0)),
        (99, 1000, false, Some(100)),
        (1, 1, false, None),
        (1, 999, true, None),
        (1, 1000, true, Some(2)),
    ];
    for (name, string, quoted, want) in rows {
        let text = sized(rt.alloc(), name, string, quoted)?;
        assert!(rt; fault(rt.alloc(), text.as_slice())? == want);
    }
    Ok(())
}

/// What the rules say of `a='b', ?c!=0x1F` with this byte in this position: the fault's place.
fn changed_fault(position: usize, byte: u8) -> Option<u64> {
    match (position, byte) {
        (0, b'c' | b'C') => Some(8),
        (0, b'a'..=b'z' | b'A'..=b'Z') => None,
        (0, b' ' | b'?' | b'-') => Some(1),
        (0, _) => Some(0),
        (1, b'=') => None,
        (1, b'.') => Some(0),
        (1, b' ' | b',' | b'_' | b'0'..=b'9' | b'a'..=b'z' | b'A'..=b'Z') => Some(2),
        (1, _) => Some(1),
        (2, b'\'' | b' ' | b'a'..=b'z' | b'A'..=b'Z') => None,
        (3, b'\'') => Some(4),
        (3, 32..=126) => None,
        (4, b'\'') => None,
        (2..=4, _) => Some(2),
        (5, b',') => None,
        (5, b' ') => Some(7),
        (5, _) => Some(5),
        (6, b' ') => None,
        (6, b'a' | b'A') => Some(6),
        (6, b'?' | b'-' | b'a'..=b'z' | b'A'..=b'Z') => Some(7),
        (6, _) => Some(6),
        (7, b'?' | b' ' | b'a'..=b'z' | b'A'..=b'Z') => None,
        (7, b'-') => Some(9),
        (7, _) => Some(7),
        (8, b'a' | b'A') => Some(8),
        (8, b'a'..=b'z' | b'A'..=b'Z') => None,
        (8, b' ') => Some(9),
        (8, _) => Some(8),
        (9, b'!' | b' ' | b'_' | b'0'..=b'9' | b'a'..=b'z' | b'A'..=b'Z') => None,
        (9, b'.') => Some(8),
        (9, b',' | b'=') => Some(10),
        (10, b'=') => None,
        (9..=10, _) => Some(9),
        (11, b'0' | b' ' | b'a'..=b'z' | b'A'..=b'Z') => None,
        (12, b'x' | b'X') => None,
        (12, b' ' | b',') => Some(13),
        (13, b'0'..=b'9' | b'a'..=b'f' | b'A'..=b'F') => None,
        (14, b' ' | b'0'..=b'9' | b'a'..=b'f' | b'A'..=b'F') => None,
        (14, b',') => Some(15),
        _ => Some(11),
    }
}

#[test]
fn bytes(rt: HostRuntime) -> Result<(), Fail> {
    let text = b"a='b', ?c!=0x1F";
    for position in 0..15usize {
        for byte in 0..=255u8 {
            let mut changed = Vec::from_slice(rt.alloc(), text.as_slice())?;
            changed[position] = byte;
            assert!(rt; fault(rt.alloc(), changed.as_slice())? == changed_fault(position, byte));
        }
    }
    Ok(())
}
