use bas_fields::{
    Cursor, FieldError, decimal, hex_text, hexadecimal, put_u64, read_decimal, write_u64,
};
use std::fmt::Debug;
use std::process::Abort;
use std::test::Fail;

/// Stops where another answer came.
fn want<T: PartialEq + Debug + Drop>(rt: &impl Abort, answer: T, wanted: T) {
    assert_eq!(rt; answer, wanted);
}

#[test]
fn fields_in_turn(rt: HostRuntime) -> Result<(), Fail> {
    let mut bytes = vec![in rt.alloc(); 9]?;
    put_u64(&mut bytes, 0x0102_0304_0506_0708)?;
    bytes.extend_from_slice(b"end")?;
    want(
        &rt,
        bytes.as_slice(),
        b"\x09\x08\x07\x06\x05\x04\x03\x02\x01end",
    );
    let mut cursor = Cursor::new(&bytes);
    want(&rt, cursor.take_u8(), Ok(9));
    want(&rt, cursor.take_u64(), Ok(0x0102_0304_0506_0708));
    want(&rt, cursor.end(), Err(FieldError::Rest));
    want(&rt, cursor.take_bytes(4), Err(FieldError::Short));
    want(&rt, cursor.take_u64(), Err(FieldError::Short));
    want(&rt, cursor.take_bytes(0), Ok(b"".as_slice()));
    want(&rt, cursor.take_bytes(3), Ok(b"end".as_slice()));
    want(&rt, cursor.take_u8(), Err(FieldError::Short));
    want(&rt, cursor.end(), Ok(()));
    Ok(())
}

#[test]
fn a_field_in_pieces(rt: HostRuntime) {
    let mut pieces = [0; 9];
    let n = 0x0102_0304_0506_0708;
    want(&rt, write_u64(&mut pieces[..3], n, 0), 3);
    want(&rt, write_u64(&mut pieces[3..], n, 3), 5);
    want(&rt, write_u64(&mut pieces[8..], n, 8), 0);
    want(&rt, pieces, [8, 7, 6, 5, 4, 3, 2, 1, 0]);
}

#[test]
fn seven_bytes_are_too_few(rt: HostRuntime) {
    let mut cursor = Cursor::new(&[1, 2, 3, 4, 5, 6, 7]);
    want(&rt, cursor.take_u64(), Err(FieldError::Short));
    want(&rt, cursor.left(), 7);
    want(
        &rt,
        cursor.take_bytes(7),
        Ok([1, 2, 3, 4, 5, 6, 7].as_slice()),
    );
    want(&rt, cursor.end(), Ok(()));
}

#[test]
fn numbers_as_text(rt: HostRuntime) -> Result<(), Fail> {
    let alloc = rt.alloc();
    let cases: [(u64, &[u8], &[u8]); 7] = [
        (0, b"0", b"0"),
        (9, b"9", b"9"),
        (10, b"10", b"a"),
        (255, b"255", b"ff"),
        (4096, b"4096", b"1000"),
        (1 << 63, b"9223372036854775808", b"8000000000000000"),
        (u64::MAX, b"18446744073709551615", b"ffffffffffffffff"),
    ];
    for (number, decimal_digits, hexadecimal_digits) in cases {
        want(&rt, decimal(alloc, number)?.as_slice(), decimal_digits);
        want(
            &rt,
            hexadecimal(alloc, number)?.as_slice(),
            hexadecimal_digits,
        );
    }
    want(
        &rt,
        hex_text(alloc, &[0x00, 0x9a, 0xff])?.as_slice(),
        b"009aff",
    );
    want(&rt, hex_text(alloc, &[])?.as_slice(), b"");
    Ok(())
}

#[test]
fn decimal_texts_are_read(rt: HostRuntime) {
    let cases = [
        ("0", Some(0)),
        ("9", Some(9)),
        ("10", Some(10)),
        ("9223372036854775807", Some(0x7fff_ffff_ffff_ffff)),
        ("9223372036854775808", None),
        ("18446744073709551615", None),
        ("18446744073709551616", None),
        ("", None),
        ("00", None),
        ("01", None),
        ("+1", None),
        ("+0", None),
        ("-1", None),
        ("-0", None),
        (" 1", None),
        ("1 ", None),
        ("0x1", None),
        ("a", None),
        ("\u{0661}", None),
    ];
    for (text, expected) in cases {
        assert_eq!(rt; read_decimal(text), expected, "at {text}");
    }
}
