// Pieces at the limits of buffers, quotas and patience.
use errors::Error;
use model::Refusal;
use piece::{Kind, Piece, next_piece};
use reader::Reader;
use rows::first_piece;
use source::{Fault, Quota, Whole};

const TAG: Result<Option<Piece>, Refusal> = Ok(Some(Piece {
    kind: Kind::Tag,
    written: 3,
}));

// A refusal whose bytes all came from the source.
fn refused(error: Error, taken: usize) -> Result<Option<Piece>, Refusal> {
    Err(Refusal {
        error,
        written: taken,
        taken,
    })
}

// A buffer exactly full, and one byte short.
#[test]
fn room(rt: HostRuntime) {
    let (whole, behind) = first_piece(b"<a>", b"", &mut [0u8; 3]);
    assert_eq!(rt; whole, TAG);
    assert_eq!(rt; behind, 3);
    let (short, behind) = first_piece(b"<a>", b"", &mut [0u8; 2]);
    assert_eq!(rt; short, refused(Error::BufferFull, 2));
    assert_eq!(rt; behind, 2);
}

// A quota exactly met, and one byte short.
#[test]
fn quota(rt: HostRuntime) {
    let mut buf = [0u8; 64];
    let mut met = Reader::new(Quota::new(Whole::new(b"<a>"), 3), 0);
    assert_eq!(rt; next_piece(&mut met, &mut buf, 0), TAG);
    let mut passed = Reader::new(Quota::new(Whole::new(b"<a>"), 2), 0);
    assert_eq!(rt;
        next_piece(&mut passed, &mut buf, 0),
        refused(Error::Io(Fault::Quota(2)), 2)
    );
}

// One wait more than the patience: the wait is gone, and the call after it goes on.
#[test]
fn patience(rt: HostRuntime) {
    let mut buf = [0u8; 8];
    let (worn, behind) = first_piece(b"<a>", &[2, 0], &mut buf);
    assert_eq!(rt; worn, refused(Error::Patience, 2));
    assert_eq!(rt; behind, 2);
    let mut full = Reader::new(Whole::new(b"<a>"), 0x8000_0000_0000_0000);
    assert_eq!(rt;
        next_piece(&mut full, &mut buf, 0),
        refused(Error::Position, 0)
    );
}
