// The sentences of the refusals.
use errors::Error;
use parser::SyntaxError;
use source::Fault;
use std::test::Fail;
use utf8::Utf8Error;

const TEXTS: [(Error, &str); 21] = [
    (
        Error::Position,
        "the position has reached 2^63: make a new reader",
    ),
    (
        Error::BufferTooLong,
        "the buffer is longer than 16777216 bytes",
    ),
    (
        Error::Opening,
        "a peeked `<` is pending and must be read or abandoned first, or none is pending and one must be peeked first",
    ),
    (Error::NotBang, "the byte peeked behind `<` is not `!`"),
    (
        Error::BufferTooShort,
        "the buffer is too short for this call",
    ),
    (
        Error::Patience,
        "the source was silent more often than the call's patience allows",
    ),
    (
        Error::Io(Fault::Broken(7)),
        "the input broke off before its end, with code 7",
    ),
    (
        Error::Io(Fault::Quota(32_768)),
        "the input is longer than its quota of 32768 bytes",
    ),
    (
        Error::FirstByte,
        "the source does not go on with the byte that this call reads first",
    ),
    (
        Error::Syntax(SyntaxError::InvalidBangMarkup),
        "after `<!` only a comment, a CDATA section or a DOCTYPE can follow",
    ),
    (Error::BufferFull, "the piece does not fit the buffer"),
    (
        Error::Syntax(SyntaxError::UnclosedPI),
        "the input ends inside a processing instruction, before its `?>`",
    ),
    (
        Error::Syntax(SyntaxError::UnclosedXmlDecl),
        "the input ends inside the XML declaration, before its `?>`",
    ),
    (
        Error::Syntax(SyntaxError::UnclosedComment),
        "the input ends inside a comment, before its `-->`",
    ),
    (
        Error::Syntax(SyntaxError::UnclosedDoctype),
        "the input ends inside a DOCTYPE, before its `>`",
    ),
    (
        Error::Syntax(SyntaxError::UnclosedCData),
        "the input ends inside a CDATA section, before its `]]>`",
    ),
    (
        Error::Syntax(SyntaxError::UnclosedTag),
        "the input ends inside a tag, before its `>`",
    ),
    (
        Error::Syntax(SyntaxError::UnclosedSingleQuotedAttributeValue),
        "the input ends inside an attribute's value, before its closing `'`",
    ),
    (
        Error::Syntax(SyntaxError::UnclosedDoubleQuotedAttributeValue),
        "the input ends inside an attribute's value, before its closing `\"`",
    ),
    (
        Error::Utf8(Utf8Error { valid_up_to: 3 }),
        "not UTF-8 after the first 3 bytes",
    ),
    (
        Error::PieceTooLong,
        "the piece is longer than the buffer it should be shown from",
    ),
];

#[test]
fn sentences(rt: HostRuntime) -> Result<(), Fail> {
    for &(error, text) in &TEXTS {
        assert!(rt; format!(in rt.alloc(); "{error}")?.as_str() == text);
    }
    Ok(())
}
