// One call on two readers.
use model::Told;
use parser::ElementParser;
use reader::Reader;
use source::{Cut, Source, Whole};
use twins::{Call, both};

// Reads a text and a reference from each reader: what the calls tell, and the buffer after.
fn text_and_ref<S: Source, T: Source>(
    one: &mut Reader<S>,
    other: &mut Reader<T>,
) -> [(Told, Told, [u8; 8]); 2] {
    let mut buf = [0; 8];
    let mut other_buf = [0; 8];
    let (text, other_text) = both(
        one,
        other,
        Call::<ElementParser>::ReadText,
        Call::<ElementParser>::ReadText,
        &mut buf,
        &mut other_buf,
        0,
        2,
    );
    let (reference, other_reference) = both(
        one,
        other,
        Call::<ElementParser>::ReadRef,
        Call::<ElementParser>::ReadRef,
        &mut buf,
        &mut other_buf,
        0,
        1,
    );
    [
        (text.told(), reference.told(), buf),
        (other_text.told(), other_reference.told(), other_buf),
    ]
}

#[test]
fn waits_do_not_show(rt: HostRuntime) {
    let mut whole = Reader::new(Whole::new(b"ab&lt;"), 0);
    let mut cut = Reader::new(Cut::new(b"ab&lt;", &[0, 1, 0, 3, 0], 0), 0);
    let [one, other] = text_and_ref(&mut whole, &mut cut);
    assert_eq!(rt; one, other);
    assert_eq!(rt; (whole.position(), cut.position()), (6, 6));
}
