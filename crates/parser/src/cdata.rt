ghost use Rattle.parser.specs.CData.{cdata, cdata_due};
ghost use Rattle.parser.specs.Doubled.{doubled_step};
ghost use Rattle.parser.specs.Machines;

use crate::bytes::feed_machine;
use crate::doubled::DoubledParser;
use crate::errors::SyntaxError;
use crate::parser::Parser;

// Finds the `]]>` that ends a CDATA section.
pub type CDataParser = DoubledParser<b']'>;

impl Parser for CDataParser {
    ghost scan = { cdata };

    ghost prefix = { Machines.prefix doubled_step cdata_due };

    fn feed(&mut self, bytes: &[u8]) -> Option<usize> {
        feed_machine(self, bytes)
    }

    fn eof_error(self, _content: &[u8]) -> SyntaxError {
        SyntaxError::UnclosedCData
    }
}
