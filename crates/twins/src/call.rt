ghost use Rattle.std.specs.Prelude.{◌≡◌, [], if◌then◌else◌};
ghost use Rattle.model.specs.Call.{outcome};
ghost use Rattle.model.specs.History.{Continues, event};
ghost use Rattle.reader.specs.State.{the_token};
ghost use Rattle.twins.specs.Calls.{buffered, call_of, performs};

use model::Answer;
use parser::Parser;
use reader::{OpeningToken, Reader};
use source::Source;

// One of a reader's calls, with the token and the scanner that it is given: a value, since the theorems range over calls.
pub enum Call<P> {
    ReadText,
    ReadRef,
    PeekOne,
    ReadWith(OpeningToken, P),
    ReadBangElement(OpeningToken),
    Abandon(OpeningToken),
}

// Makes the call. One that takes no buffer leaves it as it is.
pub fn perform<S: Source, P: Parser + Drop>(
    reader: &mut Reader<S>,
    call: Call<P>,
    buf: &mut [u8],
    patience: u32,
) -> Answer<OpeningToken>
    ensures does { outcome result reader.new buf.new ≡ performs P.Parser.scan reader.old call buf.old patience }
    ensures report { Continues the_token reader.old (event (call_of P.Parser.scan call buf.old patience) result (if buffered call then buf.new else [])) reader.new }
{
    match call {
        Call::ReadText => Answer::Text(reader.read_text(buf, patience)),
        Call::ReadRef => Answer::Ref(reader.read_ref(buf, patience)),
        Call::PeekOne => Answer::Peek(reader.peek_one(patience)),
        Call::ReadWith(token, parser) => Answer::With(reader.read_with(
            token, parser, buf, patience,
        )),
        Call::ReadBangElement(token) => Answer::Bang(reader.read_bang_element(
            token, buf, patience,
        )),
        Call::Abandon(token) => Answer::Abandon(reader.abandon(token)),
    }
}
