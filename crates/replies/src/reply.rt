// What a call answered, without the token that came with it.
ghost use Rattle.std.specs.Prelude.{◌≡◌};
ghost use Rattle.replies.specs.Reply.{reply_told, after_text, after_peek, after_single, follower_of};

use cases::{Call, Spending};
use errors::Error;
use model::{Answer, ReadRef, ReadText, Refusal, Refused, Told};
use piece::{Piece, next_told};
use source::Fault;
use std::fmt;

#[derive(Drop)]
pub enum Reply {
    Single(Answer<()>),
    Next(Result<Option<Piece>, Refusal>),
}

fn after_text(answer: &Result<ReadText, Refusal>) -> Option<Call>
    ensures { result ≡ after_text answer.now }
{
    match answer {
        Ok(ReadText::Markup) => Some(Call::Peek),
        Ok(ReadText::Ref) => Some(Call::Ref),
        Ok(ReadText::UpToEof(0)) => None,
        Ok(_) => Some(Call::Text),
        Err(_) => None,
    }
}

fn after_peek(answer: &Result<Option<(u8, ())>, Refusal>) -> Option<Call>
    ensures { result ≡ after_peek answer.now }
{
    match answer {
        Ok(Some((b'!', _))) => Some(Call::Spend(Spending::Bang)),
        Ok(Some((b'?', _))) => Some(Call::Spend(Spending::Pi)),
        Ok(Some(_)) => Some(Call::Spend(Spending::Elem)),
        Ok(None) | Err(_) => None,
    }
}

fn after_single(answer: &Answer<()>) -> Option<Call>
    ensures { result ≡ after_single answer.now }
{
    match answer {
        Answer::Text(text) => after_text(text),
        Answer::Peek(peeked) => after_peek(peeked),
        Answer::Ref(Ok(_)) | Answer::With(Ok(_)) | Answer::Bang(Ok(_)) => Some(Call::Text),
        Answer::Ref(Err(_)) | Answer::With(Err(_)) | Answer::Bang(Err(_)) => None,
        Answer::Abandon(_) => None,
    }
}

impl Reply {
    pub fn told(&self) -> Told
        ensures { result ≡ reply_told self.now }
    {
        match self {
            Reply::Single(answer) => answer.told(),
            Reply::Next(answer) => next_told(answer),
        }
    }

    // The call that follows where calls go on until the source's end or a refusal.
    pub fn follower(&self) -> Option<Call>
        ensures { result ≡ follower_of self.now }
    {
        match self {
            Reply::Single(answer) => after_single(answer),
            Reply::Next(Ok(Some(_))) => Some(Call::Next),
            Reply::Next(_) => None,
        }
    }
}

// As docs/REPLAY.md writes it: errors and answers are other crates' types, which print themselves in another form or not at all. A
// type of ours around each, to have `Display`, would be no plainer than these functions.
fn show_error<W: fmt::Write>(error: &Error, f: &mut fmt::Formatter<W>) -> fmt::Result {
    match error {
        Error::Syntax(syntax) => write!(f, "Syntax:{syntax:?}"),
        Error::Io(Fault::Broken(code)) => write!(f, "Io:{code}"),
        Error::Io(Fault::Quota(quota)) => write!(f, "Quota:{quota}"),
        Error::Utf8(utf8) => write!(f, "Utf8:{}", utf8.valid_up_to),
        other => write!(f, "No:{}", other.number()),
    }
}

fn text_name(text: &ReadText) -> &'static str {
    match text {
        ReadText::Markup => "Markup",
        ReadText::Ref => "Ref",
        ReadText::UpToMarkup(_) => "UpToMarkup",
        ReadText::UpToRef(_) => "UpToRef",
        ReadText::UpToEof(_) => "UpToEof",
    }
}

fn ref_name(reference: &ReadRef) -> &'static str {
    match reference {
        ReadRef::Ref(_) => "Ref",
        ReadRef::UpToMarkup(_) => "UpToMarkup",
        ReadRef::UpToRef(_) => "UpToRef",
        ReadRef::UpToEof(_) => "UpToEof",
    }
}

fn show_answer<W: fmt::Write>(answer: &Answer<()>, f: &mut fmt::Formatter<W>) -> fmt::Result {
    match answer {
        Answer::Text(Ok(text)) => f.write_str(text_name(text)),
        Answer::Ref(Ok(reference)) => f.write_str(ref_name(reference)),
        Answer::Peek(Ok(Some((b, _)))) => write!(f, "Some({b})"),
        Answer::Peek(Ok(None)) => f.write_str("None"),
        Answer::With(Ok(_)) | Answer::Abandon(Ok(_)) => f.write_str("Ok"),
        Answer::Bang(Ok((kind, _))) => write!(f, "{kind:?}"),
        Answer::Text(Err(refusal)) | Answer::Ref(Err(refusal)) | Answer::Peek(Err(refusal)) =>
            show_error(&refusal.error, f),
        Answer::With(Err(refused)) | Answer::Bang(Err(refused)) | Answer::Abandon(Err(refused)) =>
            match refused {
                Refused::Kept(error, _) => show_error(error, f),
                Refused::Spent(refusal) => show_error(&refusal.error, f),
            },
    }
}

impl fmt::Display for Reply {
    fn fmt<W: fmt::Write>(&self, f: &mut fmt::Formatter<W>) -> fmt::Result {
        match self {
            Reply::Single(answer) => show_answer(answer, f),
            Reply::Next(Ok(Some(piece))) => write!(f, "{}", piece.kind),
            Reply::Next(Ok(None)) => f.write_str("end"),
            Reply::Next(Err(refusal)) => show_error(&refusal.error, f),
        }
    }
}
