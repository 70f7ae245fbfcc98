// Why a call is refused.
#![tactic(auto)]

ghost use Rattle.std.specs.Prelude.{◌≡◌};
ghost use Rattle.errors.specs.Numbers.{number as number_of};
ghost use Rattle.errors.specs.declared.Error.TheVariants.{Io as io_error, Syntax as syntax_error, Utf8 as utf8_error};

use parser::SyntaxError;
use source::Fault;
use std::fmt;
use utf8::Utf8Error;

#[derive(Clone, Copy, Debug, PartialEq, Eq)]
pub enum Error {
    // the position is 2^63 or more
    Position,
    // the buffer is longer than 16 MiB
    BufferTooLong,
    // an opening is pending where none may be, or none is where one must be
    Opening,
    // the byte last peeked is not `!`
    NotBang,
    // the buffer is shorter than the call's least
    BufferTooShort,
    // more waits than the call's patience
    Patience,
    // the fault of the source
    Io(Fault),
    // the source does not begin with the byte that the call takes first
    FirstByte,
    // the next byte of the piece does not fit the buffer
    BufferFull,
    // the construct has no end, or `<!` begins none
    Syntax(SyntaxError),
    // the piece is not UTF-8
    Utf8(Utf8Error),
    // the piece to show is longer than the buffer
    PieceTooLong,
}

impl Error {
    // The number under which the rules and the recorded answers list this refusal.
    // Written out: some variants hold a value, so that the enum is not cast to a number, as SyntaxError is.
    pub fn number(&self) -> u8
        ensures { result ≡ number_of self.now }
    {
        match self {
            Error::Position => 1,
            Error::BufferTooLong => 2,
            Error::Opening => 3,
            Error::NotBang => 4,
            Error::BufferTooShort => 5,
            Error::Patience => 6,
            Error::Io(_) => 7,
            Error::FirstByte => 8,
            Error::BufferFull => 10,
            Error::Syntax(error) => error.number(),
            Error::Utf8(_) => 19,
            Error::PieceTooLong => 20,
        }
    }
}

impl From<Fault> for Error {
    ghost from_gives = { λ fault e. e ≡ io_error fault };

    fn from(fault: Fault) -> Error {
        Error::Io(fault)
    }
}

impl From<SyntaxError> for Error {
    ghost from_gives = { λ error e. e ≡ syntax_error error };

    fn from(error: SyntaxError) -> Error {
        Error::Syntax(error)
    }
}

impl From<Utf8Error> for Error {
    ghost from_gives = { λ error e. e ≡ utf8_error error };

    fn from(error: Utf8Error) -> Error {
        Error::Utf8(error)
    }
}

impl fmt::Display for Error {
    fn fmt<W: fmt::Write>(&self, f: &mut fmt::Formatter<W>) -> fmt::Result {
        match self {
            Error::Position => f.write_str("the position has reached 2^63: make a new reader"),
            Error::BufferTooLong => f.write_str("the buffer is longer than 16777216 bytes"),
            Error::Opening => f.write_str(
                "a peeked `<` is pending and must be read or abandoned first, or none is pending and one must be peeked first",
            ),
            Error::NotBang => f.write_str("the byte peeked behind `<` is not `!`"),
            Error::BufferTooShort => f.write_str("the buffer is too short for this call"),
            Error::Patience => f.write_str(
                "the source was silent more often than the call's patience allows",
            ),
            Error::Io(fault) => write!(f, "{fault}"),
            Error::FirstByte => f.write_str(
                "the source does not go on with the byte that this call reads first",
            ),
            Error::BufferFull => f.write_str("the piece does not fit the buffer"),
            Error::Syntax(error) => write!(f, "{error}"),
            Error::Utf8(error) => write!(f, "{error}"),
            Error::PieceTooLong => f.write_str(
                "the piece is longer than the buffer it should be shown from",
            ),
        }
    }
}

impl std::error::Error for Error {}
