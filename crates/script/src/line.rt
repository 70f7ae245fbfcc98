// The lines that are written.
use cases::Call;
use model::Told;
use replies::Reply;
use std::io;
use std::io::Write;

// What each byte of a buffer is before a call.
pub(crate) const BLANK: u8 = 0xaa;

// A hexadecimal digit, in lower case.
fn digit(n: u8) -> u8 {
    b"0123456789abcdef"[n as usize % 16]
}

// Bytes as pairs of hexadecimal digits; `-` for none. The digits are pushed: to format each byte takes several times as long.
fn write_hex(lines: &mut Vec<u8>, bytes: &[u8]) -> io::Result<()> {
    if bytes.is_empty() {
        lines.push(b'-')?;
    }
    for b in bytes {
        lines.push(digit(*b / 16))?;
        lines.push(digit(*b % 16))?;
    }
    Ok(())
}

// The first three fields.
pub(crate) fn write_reply(
    lines: &mut Vec<u8>,
    id: &[u8],
    call: Call,
    reply: &Reply,
) -> io::Result<()> {
    lines.extend_from_slice(id)?;
    write!(lines, "\t{call}\t{reply}")
}

// What the call wrote to the buffer's front; `spilled` where a byte behind that was changed.
pub(crate) fn write_front(lines: &mut Vec<u8>, front: &[u8], spilled: bool) -> io::Result<()> {
    if spilled {
        lines.extend_from_slice(b"!SPILL")?;
    }
    lines.push(b'\t')?;
    write_hex(lines, front)
}

// The position, and the bytes of the case that are not yet taken.
pub(crate) fn write_place(lines: &mut Vec<u8>, position: u64, left: usize) -> io::Result<()> {
    write!(lines, "\t{position}\t{left}")
}

// The last four fields, where lines have them all.
pub(crate) fn write_told(lines: &mut Vec<u8>, told: &Told, pending: bool) -> io::Result<()> {
    write!(
        lines,
        "\t{}\t{}\t{}\t{}",
        told.number, told.written, told.taken, pending as u8
    )
}
