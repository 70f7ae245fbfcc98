// Listings of whole reports.
use listing::list_report;
use std::alloc::{AllocError, Global};
use std::test::Fail;

// The lines of a listing, with a line end behind each.
fn listing(heap: Global, report: &[u8]) -> Result<String, AllocError> {
    let mut text = String::new(heap);
    for line in list_report(heap, report)?.iter() {
        text.push_str(format!(in heap; "{line}\n")?.as_str())?;
    }
    Ok(text)
}

#[test]
fn small_report(rt: HostRuntime) -> Result<(), Fail> {
    let text = listing(rt.alloc(), b"<a>5&lt;</a>")?;
    assert!(rt; text.as_str() == "tag\t0\t3\ntext\t3\t1\nref\t4\t4\ntag\t8\t4\nend\t12\t0\n");
    let none = listing(rt.alloc(), b"")?;
    assert!(rt; none.as_str() == "end\t0\t0\n");
    let broken = listing(rt.alloc(), b"<a>\xc3\x28")?;
    assert!(rt; broken.as_str() == "tag\t0\t3\nfault\t3\t19\n");
    Ok(())
}

// Reports and their listings: every kind of piece, and every refusal that can close a listing but the quota's.
const LISTINGS: [(&[u8], &str); 23] = [
    (b"", "end\t0\t0\n"),
    (
        b"<a>5&lt;</a>",
        "tag\t0\t3\ntext\t3\t1\nref\t4\t4\ntag\t8\t4\nend\t12\t0\n",
    ),
    (
        b"<?xml version=\"1.0\"?><!DOCTYPE r [<!ENTITY k \"kPa>\"><!-- a-b -> ]> --><?p x?>]><r u='>'><!--note--><![CDATA[a]]b]]>7&k;</r>",
        "pi\t0\t21\ndoctype\t21\t58\ntag\t79\t9\ncomment\t88\t11\ncdata\t99\t16\ntext\t115\t1\nref\t116\t3\ntag\t119\t4\nend\t123\t0\n",
    ),
    (
        b"1&a&b<c>&d;e&",
        "text\t0\t1\nloose\t1\t2\nloose\t3\t2\ntag\t5\t3\nref\t8\t3\ntext\t11\t1\nloose\t12\t1\nend\t13\t0\n",
    ),
    (
        b"\xef\xbb\xbf<w>\xe2\x82\xac</w>\n",
        "text\t0\t3\ntag\t3\t3\ntext\t6\t3\ntag\t9\t4\ntext\t13\t1\nend\t14\t0\n",
    ),
    (b"<a>\xc3(</a>", "tag\t0\t3\nfault\t3\t19\n"),
    (b"<a \xc3(>", "fault\t0\t19\n"),
    (b"&\xff;", "fault\t0\t19\n"),
    (b"<!--\x80-->", "fault\t0\t19\n"),
    (b"<", "fault\t0\t16\n"),
    (b"<!", "fault\t0\t9\n"),
    (b"<!x", "fault\t0\t9\n"),
    (b"a<?x", "text\t0\t1\nfault\t1\t11\n"),
    (b"<?xml ", "fault\t0\t12\n"),
    (b"<?xml?", "fault\t0\t12\n"),
    (b"<?xmlx", "fault\t0\t11\n"),
    (b"<!-->", "fault\t0\t13\n"),
    (b"<!--->", "fault\t0\t13\n"),
    (b"<!D[", "fault\t0\t14\n"),
    (b"<![CDATA[]]", "fault\t0\t15\n"),
    (b"<a", "fault\t0\t16\n"),
    (b"<a b='>", "fault\t0\t17\n"),
    (b"<a b=\">", "fault\t0\t18\n"),
];

// How a listing closes where a construct has no end.
const CLOSING: [(&[u8], &str); 8] = [
    (b"<!x", "fault\t0\t9\n"),
    (b"<?x", "fault\t0\t11\n"),
    (b"<?xml ", "fault\t0\t12\n"),
    (b"<!-- -", "fault\t0\t13\n"),
    (b"<!DOCTYPE a [", "fault\t0\t14\n"),
    (b"<![CDATA[]]", "fault\t0\t15\n"),
    (b"<a b='>", "fault\t0\t17\n"),
    (b"<a b=\">", "fault\t0\t18\n"),
];

// Whether each report of a table is listed as the lines beside it.
fn lists_as(heap: Global, table: &[(&[u8], &str)]) -> Result<bool, AllocError> {
    for &(report, lines) in table {
        if listing(heap, report)?.as_str() != lines {
            return Ok(false);
        }
    }
    Ok(true)
}

#[test]
fn reports(rt: HostRuntime) -> Result<(), Fail> {
    assert!(rt; lists_as(rt.alloc(), &LISTINGS)?);
    Ok(())
}

#[test]
fn closing_faults(rt: HostRuntime) -> Result<(), Fail> {
    assert!(rt; lists_as(rt.alloc(), &CLOSING)?);
    Ok(())
}

// As many bytes as the quota and the buffer hold, and one more.
#[test]
fn quota_met_and_passed(rt: HostRuntime) -> Result<(), Fail> {
    let mut report = vec![in rt.alloc(); b'a'; 32_768]?;
    let whole = listing(rt.alloc(), report.as_slice())?;
    assert!(rt; whole.as_str() == "text\t0\t32768\nend\t32768\t0\n");
    report.push(b'a')?;
    let more = listing(rt.alloc(), report.as_slice())?;
    assert!(rt; more.as_str() == "fault\t0\t7\n");
    Ok(())
}
