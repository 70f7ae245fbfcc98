ghost use Rattle.std.specs.Prelude.{◌≡◌, ◌-◌};
ghost use Rattle.model.specs.Bang.{kind_of};
ghost use Rattle.model.specs.Call.{refusal};

use bang::BangType;
use errors::Error;

// What read_text answers: what the text runs up to, and its length; or that markup or a reference comes at once.
#[derive(Clone, Copy, Debug, PartialEq, Eq)]
pub enum ReadText {
    UpToMarkup(usize),
    UpToRef(usize),
    UpToEof(usize),
    Markup,
    Ref,
}

// What read_ref answers: a reference with its `;`, or what stands in the place of one, and its length.
#[derive(Clone, Copy, Debug, PartialEq, Eq)]
pub enum ReadRef {
    Ref(usize),
    UpToRef(usize),
    UpToMarkup(usize),
    UpToEof(usize),
}

// What begins with `<!`.
#[derive(Clone, Copy, Debug, PartialEq, Eq)]
pub enum BangKind {
    CData,
    Comment,
    DocType,
}

impl From<BangType> for BangKind {
    ghost from_gives = { λ bang kind. kind ≡ kind_of bang };

    fn from(bang: BangType) -> BangKind {
        match bang {
            BangType::CData(_) => BangKind::CData,
            BangType::Comment(_) => BangKind::Comment,
            BangType::DocType(_) => BangKind::DocType,
        }
    }
}

// A refusal: why, how many bytes stand at the buffer's front, and how many were taken from the source.
#[derive(Clone, Copy, Debug, PartialEq, Eq)]
pub struct Refusal {
    pub error: Error,
    pub written: usize,
    pub taken: usize,
}

impl Refusal {
    // Before the source was touched.
    pub fn untouched(error: Error) -> Refusal
        ensures { result ≡ refusal error 0 0 }
    {
        Refusal {
            error,
            written: 0,
            taken: 0,
        }
    }

    // Of peek_one, which took a `<`.
    pub fn taken_opening(error: Error) -> Refusal
        ensures { result ≡ refusal error 0 1 }
    {
        Refusal {
            error,
            written: 0,
            taken: 1,
        }
    }

    // Of a call that took what it wrote.
    pub fn taken_all(error: Error, written: usize) -> Refusal
        ensures { result ≡ refusal error written written }
    {
        Refusal {
            error,
            written,
            taken: written,
        }
    }

    // Of a call that wrote a `<` which was taken before.
    pub fn taken_behind(error: Error, written: usize) -> Refusal
        ensures { result ≡ refusal error written (written - 1) }
    {
        Refusal {
            error,
            written,
            taken: written.saturating_sub(1),
        }
    }
}

// A refusal of a call that is given a token: either nothing was touched and the token comes back, or it is spent.
#[derive(Drop)]
pub enum Refused<T> {
    Kept(Error, T),
    Spent(Refusal),
}

// What one of the six calls answers. A peek has the byte behind `<`, with a token for the opening, or none where the source ends.
#[derive(Drop)]
pub enum Answer<T> {
    Text(Result<ReadText, Refusal>),
    Ref(Result<ReadRef, Refusal>),
    Peek(Result<Option<(u8, T)>, Refusal>),
    With(Result<usize, Refused<T>>),
    Bang(Result<(BangKind, usize), Refused<T>>),
    Abandon(Result<(), Refused<T>>),
}

// What every answer tells: the number under which the rules list its refusal, or 0, the bytes written to the buffer's front, and the bytes taken.
#[derive(Clone, Copy, Debug, PartialEq, Eq)]
pub struct Told {
    pub number: u8,
    pub written: usize,
    pub taken: usize,
}
