ghost use Rattle.std.specs.Prelude.{◌≡◌, ◌^◌, ◌<◌, ◌≤◌, [], length, take as front, None, Ok};
ghost use Rattle.model.specs.Call.{state, left_with, outcome, admitted, reads, taking_reading, whole, text_reading, ref_reading, with_reading};
ghost use Rattle.model.specs.Bang.{bangs};
ghost use Rattle.model.specs.declared.ending.Pending.TheVariants as pending;
ghost use Rattle.model.specs.Peek.{await, peeks, abandons};
ghost use Rattle.model.specs.History.{Continues, event, read_text, read_ref, peek_one, read_with, read_bang_element, abandon};
ghost use Rattle.quick.specs.Answers.{AsQuickXmlText, AsQuickXmlRef, AsQuickXmlPeek, AsQuickXmlWith, AsQuickXmlBang};
ghost use Rattle.split.specs.Awaits.{PeekCall, BangCall};
ghost use Rattle.split.specs.Reads.{PieceCall};
ghost use Rattle.reader.specs.Peeked.{peeked_taken, left_behind};
ghost use Rattle.reader.specs.State.{gathers, Leaves, the_token};

use super::token::OpeningToken;
use answers::{PieceEnd, admit, bang_answer, pends, spent_answer, taken_answer};
use errors::Error;
use gather::{Cutter, Reference, Scanner, Text, await_byte, bang_type, gather};
use model::{Answer, BangKind, Pending, ReadRef, ReadText, Refusal, Refused};
use parser::{Parser, SyntaxError};
use source::Source;
use std::marker::Model;

// Reads pieces of XML from a source.
#[derive(Drop)]
pub struct Reader<S: Source> {
    source: S,
    position: u64,
    // the byte behind a `<` that was peeked and is pending
    opening: Option<u8>,
}

// What a contract says of a reader: its state.
impl<S: Source> Model for Reader<S> {
    ghost use Rattle.model.specs.Call.{State, state};

    ghost Value = { State };

    ghost view = { λ r. state (S.Source.stream r.source) r.position r.opening };
}

impl<S: Source> Reader<S> {
    pub fn new(source: S, start: u64) -> Reader<S>
        ensures { result ≡ state (S.Source.stream source) start None }
    {
        Reader {
            source,
            position: start,
            opening: None,
        }
    }

    // The bytes counted so far, from the start position on.
    pub fn position(&self) -> u64
        ensures { result ≡ self.now.position }
    {
        self.position
    }

    // The byte behind a `<` that was peeked and is pending.
    pub fn opening(&self) -> Option<u8>
        ensures { result ≡ self.now.opening }
    {
        self.opening
    }

    // Takes the bytes before the next `<`, `&` or the end. Here and below buffer and patience are one call's, lent and given to it
    // alone, so no struct holds them.
    pub fn read_text(&mut self, buf: &mut [u8], patience: u32) -> Result<ReadText, Refusal>
        ensures does { outcome result self.new buf.new ≡ reads text_reading self.old buf.old patience }
        ensures report { Continues the_token self.old (event (read_text buf.old patience) (Answer.Text result) buf.new) self.new }
        ensures piece { PieceCall text_reading self.old buf.old patience (outcome result self.new buf.new) }
        ensures quick { AsQuickXmlText self.old buf.old patience (outcome result self.new buf.new) }
    {
        self.read_text_inner(buf, patience)
    }

    // Takes `&`, then all through the next `;`, or before the next `&`, `<` or the end.
    pub fn read_ref(&mut self, buf: &mut [u8], patience: u32) -> Result<ReadRef, Refusal>
        ensures does { outcome result self.new buf.new ≡ reads ref_reading self.old buf.old patience }
        ensures report { Continues the_token self.old (event (read_ref buf.old patience) (Answer.Ref result) buf.new) self.new }
        ensures piece { PieceCall ref_reading self.old buf.old patience (outcome result self.new buf.new) }
        ensures quick { AsQuickXmlRef self.old buf.old patience (outcome result self.new buf.new) }
    {
        self.read_ref_inner(buf, patience)
    }

    // Takes `<`, and answers the byte behind it, which stays, with a token for the opening that is then pending.
    pub fn peek_one(&mut self, patience: u32) -> Result<Option<(u8, OpeningToken)>, Refusal>
        ensures does { outcome result self.new [] ≡ peeks the_token self.old patience }
        ensures report { Continues the_token self.old (event (peek_one patience) (Answer.Peek result) []) self.new }
        ensures piece { PeekCall the_token self.old patience (outcome result self.new []) }
        ensures quick { AsQuickXmlPeek self.old patience (outcome result self.new []) }
    {
        self.peek_one_inner(patience)
    }

    // Writes the `<` of the pending opening, then takes all through the parser's stop.
    pub fn read_with<P: Parser + Drop>(
        &mut self,
        token: OpeningToken,
        parser: P,
        buf: &mut [u8],
        patience: u32,
    ) -> Result<usize, Refused<OpeningToken>>
        ensures does { outcome result self.new buf.new ≡ reads (with_reading token (P.Parser.scan parser)) self.old buf.old patience }
        ensures report { Continues the_token self.old (event (read_with token (P.Parser.scan parser) buf.old patience) (Answer.With result) buf.new) self.new }
        ensures piece { PieceCall (with_reading token (P.Parser.scan parser)) self.old buf.old patience (outcome result self.new buf.new) }
        ensures quick { AsQuickXmlWith (P.Parser.scan parser) self.old buf.old patience (outcome result self.new buf.new) }
    {
        self.read_with_inner(token, parser, buf, patience)
    }

    // Writes `<!` and takes the `!`, then all that the byte behind it begins: its kind and its length.
    pub fn read_bang_element(
        &mut self,
        token: OpeningToken,
        buf: &mut [u8],
        patience: u32,
    ) -> Result<(BangKind, usize), Refused<OpeningToken>>
        ensures does { outcome result self.new buf.new ≡ bangs token self.old buf.old patience }
        ensures report { Continues the_token self.old (event (read_bang_element token buf.old patience) (Answer.Bang result) buf.new) self.new }
        ensures piece { BangCall token self.old buf.old patience (outcome result self.new buf.new) }
        ensures quick { AsQuickXmlBang self.old buf.old patience (outcome result self.new buf.new) }
    {
        self.read_bang_element_inner(token, buf, patience)
    }

    // Drops the pending opening.
    pub fn abandon(&mut self, token: OpeningToken) -> Result<(), Refused<OpeningToken>>
        ensures does { outcome result self.new [] ≡ abandons token self.old }
        ensures report { Continues the_token self.old (event (abandon token) (Answer.Abandon result) []) self.new }
    {
        self.abandon_inner(token)
    }

    // The questions that a call goes through before it looks at the source, by the length of its buffer, what it wants to be
    // pending and its least buffer.
    pub fn admit(&self, size: usize, wanted: Pending, least: usize) -> Result<(), Error>
        ensures { result ≡ admitted self.now.position size wanted self.now.opening least }
    {
        admit(self.position, size, wanted, self.opening, least)
    }

    // Gathers a piece behind the first `at` bytes of the buffer, and counts it. An opening is pending no more.
    fn gather_piece<C: Cutter + Drop>(
        &mut self,
        cutter: C,
        buf: &mut [u8],
        at: usize,
        patience: u32,
    ) -> (usize, Result<C::End, Error>)
    where
        C::End: Drop,
        requires within { at ≤ length buf.old }
        requires position { self.old.position < 2 ^ 63 }
        requires size { length buf.old ≤ 16777216 }
        ensures leaves { Leaves self.old buf.old (gathers self.old buf.old (C.Cutter.cuts cutter) (front at buf.old) patience) result.0 result.1 self.new buf.new }
        ensures fits { result.0 ≤ length buf.old }
    {
        let (written, ending) = gather(&mut self.source, cutter, buf, at, patience);
        self.opening = None;
        self.position += written as u64;
        (written, ending)
    }

    // A call that takes what it writes.
    fn read_taking<E: PieceEnd + Drop, C: Cutter<End = E> + Drop>(
        &mut self,
        cutter: C,
        least: usize,
        buf: &mut [u8],
        patience: u32,
    ) -> Result<E::Answer, Refusal>
    where
        E::Answer: Drop,
        ensures { outcome result self.new buf.new ≡ reads (taking_reading (C.Cutter.cuts cutter) least (whole E.PieceEnd.answers)) self.old buf.old patience }
    {
        self.admit(buf.len(), Pending::Nothing, least)
            .map_err(Refusal::untouched)?;
        let (written, ending) = self.gather_piece(cutter, buf, 0, patience);
        taken_answer(&buf[..written], ending)
    }

    fn read_text_inner(&mut self, buf: &mut [u8], patience: u32) -> Result<ReadText, Refusal>
        ensures { outcome result self.new buf.new ≡ reads text_reading self.old buf.old patience }
    {
        self.read_taking(Text, 0, buf, patience)
    }

    fn read_ref_inner(&mut self, buf: &mut [u8], patience: u32) -> Result<ReadRef, Refusal>
        ensures { outcome result self.new buf.new ≡ reads ref_reading self.old buf.old patience }
    {
        self.read_taking(Reference::new(), 1, buf, patience)
    }

    fn read_with_inner<P: Parser + Drop>(
        &mut self,
        token: OpeningToken,
        parser: P,
        buf: &mut [u8],
        patience: u32,
    ) -> Result<usize, Refused<OpeningToken>>
        ensures { outcome result self.new buf.new ≡ reads (with_reading token (P.Parser.scan parser)) self.old buf.old patience }
    {
        // no map_err, here and below: its closure would take the token where nothing is refused
        if let Err(error) = self.admit(buf.len(), Pending::Opening, 1) {
            return Err(Refused::Kept(error, token));
        }
        token.spend();
        buf[0] = b'<';
        let (written, ending) = self.gather_piece(Scanner(parser), buf, 1, patience);
        spent_answer(&buf[..written], ending)
    }

    fn peek_one_inner(&mut self, patience: u32) -> Result<Option<(u8, OpeningToken)>, Refusal>
        ensures { outcome result self.new [] ≡ peeks the_token self.old patience }
    {
        self.admit(0, Pending::Nothing, 0)
            .map_err(Refusal::untouched)?;
        let (first, left) = await_byte(&mut self.source, patience);
        if first.map_err(Refusal::untouched)? != Some(b'<') {
            return Err(Refusal::untouched(Error::FirstByte));
        }
        self.source.take(1);
        let (behind, _) = await_byte(&mut self.source, left);
        let behind = behind.map_err(Refusal::taken_opening)?;
        self.opening = behind;
        Ok(behind.map(|b| (b, OpeningToken::new())))
    }

    // Takes the byte that was peeked: the patience left. That byte stands first, so no wait is passed.
    fn take_peeked(&mut self, patience: u32) -> Result<u32, Error>
        ensures value { result ≡ peeked_taken (await patience self.old.stream.items self.old.stream.tail) }
        ensures after { self.new ≡ left_with self.old (left_behind (await patience self.old.stream.items self.old.stream.tail)) self.old.position None }
    {
        self.opening = None;
        let (first, left) = await_byte(&mut self.source, patience);
        let Some(_) = first? else {
            return Err(SyntaxError::InvalidBangMarkup.into());
        };
        self.source.take(1);
        Ok(left)
    }

    fn read_bang_element_inner(
        &mut self,
        token: OpeningToken,
        buf: &mut [u8],
        patience: u32,
    ) -> Result<(BangKind, usize), Refused<OpeningToken>>
        ensures { outcome result self.new buf.new ≡ bangs token self.old buf.old patience }
    {
        if let Err(error) = self.admit(buf.len(), Pending::Bang, 2) {
            return Err(Refused::Kept(error, token));
        }
        self.take_bang_element(token, buf, patience)
    }

    // What read_bang_element does once it is admitted.
    fn take_bang_element(
        &mut self,
        token: OpeningToken,
        buf: &mut [u8],
        patience: u32,
    ) -> Result<(BangKind, usize), Refused<OpeningToken>>
        requires { Ok tt ≡ admitted self.old.position (length buf.old) pending.Bang self.old.opening 2 }
        ensures { outcome result self.new buf.new ≡ bangs token self.old buf.old patience }
    {
        token.spend();
        buf[0] = b'<';
        let taken = self.take_peeked(patience);
        let left = taken.map_err(|error| Refused::Spent(Refusal::taken_behind(error, 1)))?;
        buf[1] = b'!';
        let named = bang_type(&mut self.source, left);
        let (bang, left) = named.map_err(|error| Refused::Spent(Refusal::taken_behind(error, 2)))?;
        let kind = BangKind::from(bang);
        let (written, ending) = self.gather_piece(Scanner(bang), buf, 2, left);
        bang_answer(kind, &buf[..written], ending)
    }

    fn abandon_inner(&mut self, token: OpeningToken) -> Result<(), Refused<OpeningToken>>
        ensures { outcome result self.new [] ≡ abandons token self.old }
    {
        if let Err(error) = pends(Pending::Opening, self.opening) {
            return Err(Refused::Kept(error, token));
        }
        token.spend();
        self.opening = None;
        Ok(())
    }
}
