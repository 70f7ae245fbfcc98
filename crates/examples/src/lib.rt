// How a caller deals with the token of an opening.
#![tactic(auto)]

use model::{ReadText, Refusal, Refused};
use parser::ElementParser;
use reader::{OpeningToken, Reader};
use source::Source;

// Peeks, and reads on as text where nothing stands behind the `<`; an opening is given up.
pub fn read_on<S: Source>(
    reader: &mut Reader<S>,
    buf: &mut [u8],
) -> Result<Result<(), Refused<OpeningToken>>, Refusal> {
    match reader.peek_one(0)? {
        Some((_, token)) => Ok(reader.abandon(token)),
        None => {
            let _ = reader.read_text(buf, 0);
            Ok(Ok(()))
        }
    }
}

// Scans a tag, and once more with the token that a refusal handed back.
pub fn try_again<S: Source>(
    reader: &mut Reader<S>,
    token: OpeningToken,
    small: &mut [u8],
    large: &mut [u8],
) -> Result<usize, Refused<OpeningToken>> {
    match reader.read_with(token, ElementParser::default(), small, 0) {
        Err(Refused::Kept(_, token)) => reader.read_with(token, ElementParser::default(), large, 0),
        answer => answer,
    }
}
