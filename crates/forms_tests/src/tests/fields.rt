//! Tests of `byte_formats`: rows of lines and fields, and vectors of UTF-8.

use byte_formats::{Input, SmallBytes, Stopped, put_decimal, put_name, put_text};
use news_types::{Name, Text};
use std::test::Fail;

/// A line's fields are read one after the other.
#[test]
fn reads_a_line(rt: HostRuntime) -> Result<(), Fail> {
    let mut input = Input::new(b"FRAME alpha 1 229\n{}");
    assert!(rt; input.literal(b"FRAME ") == Ok(()));
    assert_eq!(rt; input.word().ok().ok_or("no name")?.as_str(), "alpha");
    assert_eq!(rt; input.decimal(b' ', 1, u32::MAX), Ok(1));
    assert_eq!(rt; input.decimal(b'\n', 0, 2097088), Ok(229));
    assert_eq!(rt; input.bytes(2).ok().ok_or("no bytes")?, b"{}".as_slice());
    assert_eq!(rt; input.left(), 0);
    assert!(rt; Input::new(b"FRUME ").literal(b"FRAME ") == Err(Stopped::Left(4)));
    assert!(rt; Input::new(b"FRA").literal(b"FRAME ") == Err(Stopped::Left(0)));
    assert_eq!(rt; Input::new(b"12").bytes(3).err(), Some(Stopped::Left(0)));
    Ok(())
}

/// Decimal numbers up to 2097088 before a line's end: what is read, or how many bytes are left from the fault on.
#[test]
fn reads_decimals(rt: HostRuntime) {
    let rows: [(&str, u32, Result<u32, Stopped>); 10] = [
        ("0\n", 0, Ok(0)),
        ("0\n", 1, Err(Stopped::Left(2))),
        ("2097088\n", 0, Ok(2097088)),
        ("2097089\n", 0, Err(Stopped::Left(2))),
        ("9999999\n", 0, Err(Stopped::Left(2))),
        ("01\n", 0, Err(Stopped::Left(2))),
        ("-1\n", 0, Err(Stopped::Left(3))),
        ("1 \n", 0, Err(Stopped::Left(2))),
        ("\n", 0, Err(Stopped::Left(1))),
        ("12", 0, Err(Stopped::Left(0))),
    ];
    for (text, least, want) in rows {
        let read = Input::new(text.as_bytes()).decimal(b'\n', least, 2097088);
        assert_eq!(rt; read, want, "at {text}");
    }
}

/// Names before a space: those of the form alone, and else how many bytes are left.
#[test]
fn reads_words(rt: HostRuntime) {
    let rows: [(&str, usize); 7] = [
        (" ", 1),
        ("Alpha ", 6),
        ("al.pha ", 5),
        ("alpha", 0),
        ("alpha\n", 1),
        ("0123456789012345678901234567890123 ", 3),
        ("caf\u{e9} ", 3),
    ];
    for (text, left) in rows {
        let read = Input::new(text.as_bytes()).word();
        assert_eq!(rt; read.err(), Some(Stopped::Left(left)), "at {text}");
    }
    let longest = Input::new(b"0123456789-bcdefghijklmnopqrstu_ ").word();
    assert!(rt; longest.is_ok());
}

/// The vectors of RFC 3629 and of the Unicode standard's table of well-formed bytes, each as a text of its length.
#[test]
fn reads_texts(rt: HostRuntime) -> Result<(), Fail> {
    let rows: [(&[u8], Option<usize>); 12] = [
        (b"", None),
        (b"A\xe2\x89\xa2\xce\x91.", None),
        (b"\xf0\xa3\x8e\xb4", None),
        (b"\xc0\x80", Some(2)),
        (b"\xe0\x80\x80", Some(2)),
        (b"\xed\xa0\x80", Some(2)),
        (b"\xf0\x80\x80\x80", Some(3)),
        (b"\xf4\x90\x80\x80", Some(3)),
        (b"\xf5\x80\x80\x80", Some(4)),
        (b"a\x80", Some(1)),
        (b"\xe2\x82", Some(2)),
        (b"\xc3A", Some(1)),
    ];
    for (bytes, left) in rows {
        let mut written = Vec::new(rt.alloc());
        written.extend_from_slice(&(bytes.len() as u32).to_be_bytes())?;
        written.extend_from_slice(bytes)?;
        let read = Input::new(written.as_slice()).text(rt.alloc(), 500);
        match read {
            Ok(text) => {
                assert_eq!(rt; text.as_str().as_bytes(), bytes);
                assert_eq!(rt; None, left);
            }
            Err(stopped) => assert_eq!(rt; Some(stopped), left.map(Stopped::Left), "at {bytes:?}"),
        }
    }
    Ok(())
}

/// Numbers stop at the first byte that takes them past their limit.
#[test]
fn reads_numbers(rt: HostRuntime) {
    assert_eq!(rt; Input::new(b"\x03\xff").u16_upto(1023), Ok(1023));
    assert_eq!(rt;
        Input::new(b"\x04\x00").u16_upto(1023),
        Err(Stopped::Left(2))
    );
    assert_eq!(rt; Input::new(b"\x00\x00\x01\xf4").u32_upto(500), Ok(500));
    assert_eq!(rt;
        Input::new(b"\x00\x00\x01\xf5").u32_upto(500),
        Err(Stopped::Left(1))
    );
    let end_of_time = b"\x00\x00\x00\x3a\xff\xf4\x41\x80";
    assert_eq!(rt;
        Input::new(end_of_time).u64_upto(253402300799),
        Err(Stopped::Left(1))
    );
    assert_eq!(rt; Input::new(end_of_time).u64(), Ok(253402300800));
    assert_eq!(rt; Input::new(b"\x00\x00\x00").u32(), Err(Stopped::Left(0)));
    assert_eq!(rt; Input::new(b"\xff\xff\xff\xff").u32(), Ok(u32::MAX));
    assert_eq!(rt; Input::new(b"\x02").flag(), Err(Stopped::Left(1)));
    assert_eq!(rt; Input::new(b"\x01").flag(), Ok(true));
    assert_eq!(rt; Input::new(b"\x06").byte(0, 5), Err(Stopped::Left(1)));
}

/// What is written are these bytes.
#[test]
fn writes_fields(rt: HostRuntime) -> Result<(), Fail> {
    let alpha = Name::read("alpha").ok_or("no name")?;
    let mut out = Vec::new(rt.alloc());
    put_name(&mut out, &alpha)?;
    let text = Text::copy_of(rt.alloc(), "\u{e9}").ok().ok_or("memory")?;
    assert!(rt; text.as_str().len() == 2);
    put_text(&mut out, &text)?;
    put_decimal(&mut out, 4294967295)?;
    assert_eq!(rt;
        out.as_slice(),
        b"\x05alpha\x00\x00\x00\x02\xc3\xa94294967295".as_slice()
    );
    assert!(rt; Input::new(out.as_slice()).name() == Ok(alpha));
    let mut small: SmallBytes<64> = SmallBytes::new();
    small.push_name(&alpha);
    assert!(rt; small.as_slice().len() < 50);
    small.push_decimal(229);
    assert_eq!(rt; small.as_slice(), b"\x05alpha229".as_slice());
    Ok(())
}
