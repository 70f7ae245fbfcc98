ghost use Rattle.std.specs.Prelude.{Some};
ghost use Rattle.listing.specs.Text.{line_text};

use piece::Kind;
use std::fmt;

// A line of a listing.
#[derive(Clone, Copy)]
pub enum Line {
    // a piece: its kind, the position before it, and its length
    Piece(Kind, u64, usize),
    // the end, at a position
    End(u64),
    // a refusal: the position before it, and its number, which is what a listing shows of it; a line with the whole error would be a
    // third larger
    Fault(u64, u8),
}

// Three fields, with tabs between them.
impl fmt::Display for Line {
    ghost output = { λ l. Some (line_text l) };

    fn fmt<W: fmt::Write>(&self, f: &mut fmt::Formatter<W>) -> fmt::Result {
        match *self {
            Line::Piece(kind, position, written) => write!(f, "{kind}\t{position}\t{written}"),
            Line::End(position) => write!(f, "end\t{position}\t0"),
            Line::Fault(position, number) => write!(f, "fault\t{position}\t{number}"),
        }
    }
}
