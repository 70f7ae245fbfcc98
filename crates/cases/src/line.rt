// The lines of a list of cases.
ghost use Rattle.std.specs.Prelude.{◌≡◌, ◌++◌, OnOk};
ghost use Rattle.std.specs.Option.{option_map};
ghost use Rattle.cases.specs.Lines.{without_return, case_line, bad_line};

use super::words::cut_at;
use std::alloc::AllocError;

fn without_return(line: &[u8]) -> &[u8]
    ensures { result.now ≡ without_return line.now }
{
    line.strip_suffix(b"\r").unwrap_or(line)
}

// A line without the carriage return that may end it; none where it is empty or a comment.
pub fn case_line(line: &[u8]) -> Option<&[u8]>
    ensures { option_map (λ x. x.now) result ≡ case_line (without_return line.now) }
{
    let text = without_return(line);
    if text.is_empty() || text.starts_with(b"#") {
        return None;
    }
    Some(text)
}

// Adds the answer to a line that is no case.
pub fn write_bad(lines: &mut Vec<u8>, line: &[u8]) -> Result<(), AllocError>
    ensures { OnOk result (lines.new.items ≡ lines.old.items ++ bad_line line.now) }
{
    let (id, _) = cut_at(line, b'\t');
    lines.extend_from_slice(id)?;
    lines.extend_from_slice(b"\tBADCASE\n")?;
    Ok(())
}
