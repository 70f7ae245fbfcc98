// Scanners, fed run by run.
use bang::BangType;
use parser::{ElementParser, Parser, PiParser, SyntaxError};

#[test]
fn quotes_last_from_run_to_run(rt: HostRuntime) {
    let mut tag = ElementParser::default();
    assert_eq!(rt; tag.feed(b"a b='some >"), None);
    assert_eq!(rt;
        tag.eof_error(b"<a b='some >"),
        SyntaxError::UnclosedSingleQuotedAttributeValue
    );
    assert_eq!(rt; tag.feed(b" \" '>text"), Some(4));
}

#[test]
fn declaration_without_an_end(rt: HostRuntime) {
    let mut pi = PiParser::default();
    assert_eq!(rt; pi.feed(b"?xml version='1.0'?"), None);
    assert_eq!(rt;
        pi.eof_error(b"<?xml version='1.0'?"),
        SyntaxError::UnclosedXmlDecl
    );
    assert_eq!(rt; pi.feed(b">"), Some(0));
}

#[test]
fn short_comment_stays_open(rt: HostRuntime) {
    let mut bang = BangType::new(b'-').expect(&rt, "`-` begins a comment");
    assert_eq!(rt; bang.feed(b"-->-"), None);
    assert_eq!(rt; bang.feed(b"->"), Some(1));
}
