use ossl_base::text::Bytes;
use ossl_commands::{Argument, Limit, LineKind, Script, ScriptRefused};
use std::alloc::{AllocError, Global};
use std::test::Fail;

/// What a text is refused for, as a letter: its kind, or `o` where it is a batch.
fn letter(alloc: Global, text: &[u8]) -> char {
    match Script::parse(alloc, text) {
        Ok(_) => 'o',
        Err(ScriptRefused::Line { kind, .. }) => match kind {
            LineKind::Byte => 'b',
            LineKind::Caller => 'c',
            LineKind::Command => 'm',
            LineKind::Arguments => 'a',
            LineKind::Option => 'p',
            LineKind::Data => 'd',
        },
        Err(ScriptRefused::NoMemory) => '?',
    }
}

/// The line with another byte at a place.
fn with_byte(alloc: Global, line: &[u8], place: usize, byte: u8) -> Result<Vec<u8>, AllocError> {
    let mut text = Vec::from_slice(alloc, line)?;
    if let Some(one) = text.get_mut(place) {
        *one = byte;
    }
    Ok(text)
}

// The faulty batches of cases/, each with its first faulty line and its kind.
#[test]
fn faulty_lines_are_told(rt: HostRuntime) {
    let rows: [(&[u8], u64, LineKind); 24] = [
        (b"1 dgst MD5\x0d", 1, LineKind::Byte),
        (b"1 dgst MD5 text:\xc3\xa9\n", 1, LineKind::Byte),
        (b"0 dgst MD5\n", 1, LineKind::Caller),
        (b"1 frob\n", 1, LineKind::Command),
        (b"1 DGST MD5\n", 1, LineKind::Command),
        (b"1 dgst MD5 abc foo=1\n", 1, LineKind::Data),
        (
            b"1 mac HMAC digest=MD5 cipher=AES-128-CBC\n",
            1,
            LineKind::Option,
        ),
        (b"1 dgst :\n", 1, LineKind::Arguments),
        (b"dgst MD5\n", 1, LineKind::Caller),
        (b"1 :\n", 1, LineKind::Command),
        (b"1 feed X\n", 1, LineKind::Arguments),
        (b"1 dgst MD5 abc\n", 1, LineKind::Data),
        (b"1 default 0\n", 1, LineKind::Arguments),
        (b"1 dgst MD5 hex:0\n", 1, LineKind::Data),
        (b"1 fetch 0 hash MD5 M\n", 1, LineKind::Arguments),
        (b"1 free M foo=1 x\n", 1, LineKind::Option),
        (b"1 dgst MD5 foo=1 abc\n", 1, LineKind::Option),
        (b"1 enc RC4 pad=\n", 1, LineKind::Option),
        (b"1 dgst MD5 lib=0 lib=0\n", 1, LineKind::Option),
        (b"1 load 0 legacy L retain retain\n", 1, LineKind::Arguments),
        (b"1 free M : a=1\n", 1, LineKind::Arguments),
        (b"# one\n1 dgst MD5\n2 dgst MD5 x\n", 3, LineKind::Data),
        (b"1 dgst MD5 key=hex:00\n", 1, LineKind::Option),
        (b"1 load 0 legacy L keep\n", 1, LineKind::Arguments),
    ];
    for (text, number, kind) in rows {
        let refused = Script::parse(rt.alloc(), text).err();
        assert_eq!(rt; refused, Some(ScriptRefused::Line { number, kind }));
    }
}

// A tab or a byte from 32 to 126 at each place of one line, in this order: a batch or a kind, by the rules of the
// language.
const LINE: &[u8] = b"3 mac M_ hex:0a lib=1 : q";

const LETTERS: [&str; 25] = [
    "ccccocccccccccccccoooooooooccccccccccccccccccccccccccccccccccccccccccccccccccccccccccccccccccccc",
    "oocccccccccccccccccccccccccccccccccccccccccccccccccccccccccccccccccccccccccccccccccccccccccccccc",
    "mmmmmmmmmmmmmmmmmmmmmmmmmmmmmmmmmmmmmmmmmmmmmmmmmmmmmmmmmmmmmmmmmmmmmmmmmmmmmmommmmmmmmmmmmmmmmm",
    "mmmmmmmmmmmmmmmmmmmmmmmmmmmmmmmmmmmmmmmmmmmmmmmmmmmmmmmmmmmmmmmmmmommmmmmmmmmmmmmmmmmmmmmmmmmmmm",
    "mmmmmmmmmmmmmmmmmmmmmmmmmmmmmmmmmmmmmmmmmmmmmmmmmmmmmmmmmmmmmmmmmmmmommmmmmmmmmmmmmmmmmmmmmmmmmm",
    "oommmmmmmmmmmmmmmmmmmmmmmmmmmmmmmmmmmmmmmmmmmmmmmmmmmmmmmmmmmmmmmmmmmmmmmmmmmmmmmmmmmmmmmmmmmmmm",
    "oooooooooooooooooooooooooooooooooooooooooooooooooooooooooooooooooooooooooooooooooooooooooooooooo",
    "oooooooooooooooooooooooooooooooooooooooooooooooooooooooooooooooooooooooooooooooooooooooooooooooo",
    "oooooooooooooooooooooooooooooooooooooooooooooooooooooooooooooooooooooooooooooooooooooooooooooooo",
    "dddddddddddddddddddddddddddddddddddddddddddddddddddddddddddddddddddddddddodddddddddddddddddddddd",
    "ddddddddddddddddddddddddddddddpdddddddddddddddddddddddddddddddddddddddoddddddddddddddddddddddddd",
    "ddddddddddddddddddddddddddddddpddddddddddddddddddddddddddddddddddddddddddddddddddddddddddodddddd",
    "dddddddddddddddddddddddddddoddpddddddddddddddddddddddddddddddddddddddddddddddddddddddddddddddddd",
    "dddddddddddddddddoooooooooodddddddooooooddddddddddddddddddddddddddoooooodddddddddddddddddddddddd",
    "dddddddddddddddddoooooooooodddddddooooooddddddddddddddddddddddddddoooooodddddddddddddddddddddddd",
    "oodddddddddddddddddddddddddddddddddddddddddddddddddddddddddddddddddddddddddddddddddddddddddddddd",
    "ppddddddddddddddddddddddddddddddddddddddddddddddddddddddddddddddddpppppppppppoppppppppppppppdddd",
    "ddddddddddddddddddddddddddddddpdddddddddddddddddddddddddddddddddddppppppppopppppppppppppppppdddd",
    "ddddddddddddddddddddddddddddddpdddddddddddddddddddddddddddddddddddpoppppppppppppppppppppppppdddd",
    "ddddddddddddddddddddddddddddddoddddddddddddddddddddddddddddddddddddddddddddddddddddddddddddddddd",
    "pppppppppppppppppooooooooooppppppppppppppppppppppppppppppppppppppppppppppppppppppppppppppppppppp",
    "oopppppppppppppppppppppppppppppppppppppppppppppppppppppppppppppppppppppppppppppppppppppppppppppp",
    "dddddddddddddddddddddddddddodddddddddddddddddddddddddddddddddddddddddddddddddddddddddddddddddddd",
    "oodddddddddddddddddddddddddddddddddddddddddddddddddddddddddddddddddddddddddddddddddddddddddddddd",
    "oooooooooooooooooooooooooooooooooooooooooooooooooooooooooooooooooooooooooooooooooooooooooooooooo",
];

#[test]
fn each_byte_in_each_place(rt: HostRuntime) -> Result<(), Fail> {
    let alloc = rt.alloc();
    for (place, row) in LETTERS.iter().enumerate() {
        for (i, expected) in row.chars().enumerate() {
            let byte = if i == 0 { 9 } else { 31 + i };
            let text = with_byte(alloc, LINE, place, u8::try_from(byte)?)?;
            assert_eq!(rt;
                letter(alloc, text.as_slice()),
                expected,
                "{byte} at {place}"
            );
        }
        for byte in 0..=255u8 {
            if byte != 9 && byte != 10 && (byte < 32 || 126 < byte) {
                let text = with_byte(alloc, LINE, place, byte)?;
                assert_eq!(rt; letter(alloc, text.as_slice()), 'b', "{byte} at {place}");
            }
        }
    }
    Ok(())
}

// All lines are counted; callers and contexts by the greatest; files by their first naming.
#[test]
fn a_batch_is_read(rt: HostRuntime) -> Result<(), Fail> {
    let alloc = rt.alloc();
    let text =
        b"# one\r\n\n2 closelib 4\n1 dgst MD5 file:b file:a file:b\r\n2 feed X hex:00fF rep:3:2e\n1 default 0 : a";
    let script = Script::parse(alloc, text).ok().ok_or("refused")?;
    assert_eq!(rt; script.lines(), 6);
    assert_eq!(rt; script.commands().len(), 4);
    assert_eq!(rt; script.callers(), 2);
    assert_eq!(rt; script.contexts(), 5);
    assert_eq!(rt; script.files().len(), 2);
    assert_eq!(rt;
        script.files().first().ok_or("no file")?.as_slice(),
        b"b".as_slice()
    );
    let own = script.own_lines(alloc, 1)?;
    assert_eq!(rt; own.get(1).ok_or("no line")?.number, 6);
    assert!(rt; own.get(2).is_none());
    assert!(rt; script.own_lines(alloc, 3)?.get(0).is_none());
    assert_eq!(rt; script.fits(&[]), None);
    assert_eq!(rt; script.fits(&[0, 4_194_305]), Some(Limit::File));
    assert_eq!(rt; script.fits(&[2_097_153]), Some(Limit::Line));
    Ok(())
}

// Data stands for its bytes, a file by its place; a file without a content has none.
#[test]
fn data_is_appended(rt: HostRuntime) -> Result<(), Fail> {
    let alloc = rt.alloc();
    let text = b"1 feed X file:a file:b rep:3:2e file:b file:c text:x hex:79";
    let script = Script::parse(alloc, text).ok().ok_or("refused")?;
    let mut contents = Vec::new(alloc);
    contents.push(Bytes::of(Vec::from_slice(alloc, b"first")?))?;
    contents.push(Bytes::of(Vec::from_slice(alloc, b"second")?))?;
    let mut out = Vec::new(alloc);
    for line in script.commands() {
        for argument in line.command.arguments() {
            if let Argument::Piece(data) = argument {
                data.put(&mut out, contents.as_slice())?;
            }
        }
    }
    assert_eq!(rt; out.as_slice(), b"firstsecond...secondxy".as_slice());
    Ok(())
}
