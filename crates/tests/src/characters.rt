// The check for UTF-8.
use utf8::{Utf8Error, check};

// Bytes, and the length of their longest front that is UTF-8.
const VECTORS: [(&[u8], usize); 24] = [
    (b"", 0),
    // the first and the last character of each row
    (b"\x00\x7f\xc2\x80\xdf\xbf", 6),
    (
        b"\xe0\xa0\x80\xe0\xbf\xbf\xe1\x80\x80\xec\xbf\xbf\xed\x80\x80\xed\x9f\xbf\xee\x80\x80\xef\xbf\xbf",
        24,
    ),
    (
        b"\xf0\x90\x80\x80\xf0\xbf\xbf\xbf\xf1\x80\x80\x80\xf3\xbf\xbf\xbf\xf4\x80\x80\x80\xf4\x8f\xbf\xbf",
        24,
    ),
    // no first byte
    (b"\x80", 0),
    (b"\xf5\x80\x80\x80", 0),
    // more bytes than the character needs
    (b"\xc0\x80", 0),
    (b"\xc1\xbf", 0),
    (b"\xe0\x80\x80", 0),
    (b"\xe0\x9f\xbf", 0),
    (b"\xf0\x8f\xbf\xbf", 0),
    // a surrogate, and past the last character
    (b"\xed\xa0\x80", 0),
    (b"\xf4\x90\x80\x80", 0),
    // a byte that is no tail
    (b"\xc2\x7f", 0),
    (b"\xdf\xc0", 0),
    (b"\xe1\x80\x7f", 0),
    (b"\xee\xc0\x80", 0),
    (b"\xf1\x80\x80\xc0", 0),
    (b"a\xc3\x28", 1),
    (b"\xc3\xa9\xe2\x82\xac\x80", 5),
    // a character that does not end
    (b"a\xc3", 1),
    (b"a\xe2\x82", 1),
    (b"a\xf0\x9f\x98", 1),
    (b"\xc3\xa9\xc3", 2),
];

#[test]
fn vectors(rt: HostRuntime) {
    for &(bytes, good) in &VECTORS {
        let answer = if good == bytes.len() {
            Ok(())
        } else {
            Err(Utf8Error { valid_up_to: good })
        };
        assert_eq!(rt; check(bytes), answer);
    }
}
