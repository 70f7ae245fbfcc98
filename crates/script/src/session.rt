// A reader with the token that is held for it. A token can not be let go: a session is closed.
ghost use Rattle.std.specs.Prelude.{◌≡◌, true, is_some};
ghost use Rattle.script.specs.Held.{Held, handed, without_token};

use cases::{Call, Spending};
use model::{Answer, Refused};
use parser::{CommentParser, ElementParser, PiParser};
use piece::next_piece;
use reader::{OpeningToken, Reader};
use replies::Reply;
use source::{Source, Whole};

pub(crate) struct Session<S: Source> {
    reader: Reader<S>,
    held: Option<OpeningToken>,
    ghost pending: { Held held reader.opening },
}

// What an answer is without the token that it hands back, and that token.
fn handed_back<A, F: FnOnce(Result<A, Refused<()>>) -> Answer<()>>(
    answer: Result<A, Refused<OpeningToken>>,
    wrap: F,
) -> (Answer<()>, Option<OpeningToken>)
    requires { F.IsAlwaysCallable wrap }
    ensures answer { F.post wrap (without_token answer) result.0 }
    ensures token { result.1 ≡ handed answer }
{
    match answer {
        Ok(accepted) => (wrap(Ok(accepted)), None),
        Err(Refused::Kept(error, token)) => (wrap(Err(Refused::Kept(error, ()))), Some(token)),
        Err(Refused::Spent(refusal)) => (wrap(Err(Refused::Spent(refusal))), None),
    }
}

// Makes a call with a token: what it answers, and the token where it is handed back. The opening is then still pending. The call
// is a value, read from a script.
fn make_with<S: Source>(
    reader: &mut Reader<S>,
    token: OpeningToken,
    call: Spending,
    buf: &mut [u8],
    patience: u32,
) -> (Answer<()>, Option<OpeningToken>)
    ensures { is_some result.1 ≡ true → reader.new.opening ≡ reader.old.opening }
{
    match call {
        Spending::Elem => {
            let answer = reader.read_with(token, ElementParser::default(), buf, patience);
            handed_back(answer, Answer::With)
        }
        Spending::Pi => {
            let answer = reader.read_with(token, PiParser::default(), buf, patience);
            handed_back(answer, Answer::With)
        }
        Spending::Comment => {
            let answer = reader.read_with(token, CommentParser::default(), buf, patience);
            handed_back(answer, Answer::With)
        }
        Spending::Bang => handed_back(reader.read_bang_element(token, buf, patience), Answer::Bang),
        Spending::Abandon => handed_back(reader.abandon(token), Answer::Abandon),
    }
}

// A session that holds a token.
fn spare() -> Session<Whole<'static>>
    ensures { is_some result.held ≡ true }
{
    let mut reader = Reader::new(Whole::new(b"<x"), 0);
    match reader.peek_one(0) {
        Ok(Some((_, token))) => Session {
            reader,
            held: Some(token),
        },
        _ => unreachable!(),
    }
}

impl<S: Source> Session<S> {
    pub(crate) fn new(source: S, start: u64) -> Session<S> {
        Session {
            reader: Reader::new(source, start),
            held: None,
        }
    }

    pub(crate) fn reader(&self) -> &Reader<S> {
        &self.reader
    }

    fn peek(&mut self, patience: u32) -> Answer<()> {
        match (self.reader.peek_one(patience), self.held.take()) {
            (Ok(Some((b, token))), None) => {
                self.held = Some(token);
                Answer::Peek(Ok(Some((b, ()))))
            }
            (Ok(Some(_)), Some(_)) => unreachable!(),
            (Ok(None), held) => {
                self.held = held;
                Answer::Peek(Ok(None))
            }
            (Err(refusal), held) => {
                self.held = held;
                Answer::Peek(Err(refusal))
            }
        }
    }

    // Makes a call that wants a token, with the one that is held or with one of a spare reader.
    fn spend(&mut self, call: Spending, buf: &mut [u8], patience: u32) -> Answer<()> {
        if let Some(token) = self.held.take() {
            let (answer, kept) = make_with(&mut self.reader, token, call, buf, patience);
            self.held = kept;
            return answer;
        }
        let mut lender = spare();
        let Some(token) = lender.held.take() else {
            unreachable!()
        };
        let (answer, kept) = make_with(&mut self.reader, token, call, buf, patience);
        lender.held = kept;
        lender.close();
        answer
    }

    // Makes a call. It is a value and no closure, since it is read from a script.
    pub(crate) fn make(&mut self, call: Call, buf: &mut [u8], patience: u32) -> Reply {
        Reply::Single(match call {
            Call::Next => return Reply::Next(next_piece(&mut self.reader, buf, patience)),
            Call::Text => Answer::Text(self.reader.read_text(buf, patience)),
            Call::Ref => Answer::Ref(self.reader.read_ref(buf, patience)),
            Call::Peek => self.peek(patience),
            Call::Spend(call) => self.spend(call, buf, patience),
        })
    }
}

impl<S: Source + Drop> Session<S> {
    // Abandons the token that is held.
    pub(crate) fn close(self) {
        let Session { mut reader, held } = self;
        let Some(token) = held else {
            return;
        };
        match reader.abandon(token) {
            Ok(()) => {}
            Err(_) => unreachable!(),
        }
    }
}
