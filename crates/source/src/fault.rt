ghost use Rattle.std.specs.Prelude.{Some};
ghost use Rattle.source.specs.Text.{fault_text};

use std::error::Error;
use std::fmt;

// Why a source can not go on.
#[derive(Clone, Copy, PartialEq, Eq, Debug)]
pub enum Fault {
    // the input broke off, for a reason that its maker gave a code
    Broken(u8),
    // the input has more bytes than this, its quota
    Quota(u32),
}

// What a source answers to a look.
#[derive(Clone, Copy, PartialEq, Eq, Debug)]
pub enum Look {
    // nothing yet: look again later
    Wait,
    // bytes are shown
    Ready,
    // no more bytes, at this and every later look
    End,
    // no more bytes, and not by an end, at this and every later look
    Fault(Fault),
}

impl fmt::Display for Fault {
    ghost output = { λ f. Some (fault_text f) };

    fn fmt<W: fmt::Write>(&self, f: &mut fmt::Formatter<W>) -> fmt::Result {
        match self {
            Fault::Broken(code) => write!(
                f,
                "the input broke off before its end, with code {code}"
            ),
            Fault::Quota(quota) => write!(f, "the input is longer than its quota of {quota} bytes"),
        }
    }
}

impl Error for Fault {}
