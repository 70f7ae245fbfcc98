// The questions before any look, and what a call answers to a gathering.
#![tactic(auto)]

mod piece;

ghost use Rattle.std.specs.Prelude.{◌≡◌};
ghost use Rattle.model.specs.Call.{admitted, pends as pends_of};

use errors::Error;
use model::Pending;
pub use piece::{PieceEnd, bang_answer, spent_answer, taken_answer};

const POSITION_LIMIT: u64 = 0x8000_0000_0000_0000;

const LONGEST_BUFFER: usize = 16_777_216;

// Whether what a call wants is pending.
pub fn pends(wanted: Pending, opening: Option<u8>) -> Result<(), Error>
    ensures { result ≡ pends_of wanted opening }
{
    match (wanted, opening) {
        (Pending::Nothing, None) | (Pending::Opening, Some(_)) | (Pending::Bang, Some(b'!')) => Ok(
            (),
        ),
        (Pending::Bang, Some(_)) => Err(Error::NotBang),
        _ => Err(Error::Opening),
    }
}

// The questions that a call goes through before it looks at the source, by what it wants to be pending and its least buffer.
// Five values and no struct: two are the reader's, the others the call's, and `Reader::admit` alone joins them.
pub fn admit(
    position: u64,
    size: usize,
    wanted: Pending,
    opening: Option<u8>,
    least: usize,
) -> Result<(), Error>
    ensures { result ≡ admitted position size wanted opening least }
{
    if position >= POSITION_LIMIT {
        return Err(Error::Position);
    }
    if size > LONGEST_BUFFER {
        return Err(Error::BufferTooLong);
    }
    pends(wanted, opening)?;
    if size < least {
        return Err(Error::BufferTooShort);
    }
    Ok(())
}
