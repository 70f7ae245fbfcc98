// Worked examples: the first piece of some bytes that come in frames.
#![tactic(auto)]

ghost use Rattle.std.specs.Prelude.{◌≡◌};
ghost use Rattle.rows.specs.Rows.{first, left_in, Rows};

use model::Refusal;
use piece::{Piece, next_piece};
use reader::Reader;
use source::Cut;

// The first piece of the bytes, cut into frames as the entries say, and the position behind it.
pub fn first_piece<'a>(
    bytes: &'a [u8],
    entries: &'a [u8],
    buf: &mut [u8],
) -> (Result<Option<Piece>, Refusal>, u64)
    ensures does { result ≡ first bytes.now entries.now buf.old }
    ensures buffer { buf.new ≡ left_in bytes.now entries.now buf.old }
    ensures rows { Rows }
{
    let mut reader = Reader::new(Cut::new(bytes, entries, 0), 0);
    let answer = next_piece(&mut reader, buf, 0);
    (answer, reader.position())
}
