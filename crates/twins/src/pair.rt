ghost use Rattle.std.specs.Prelude.{◌≡◌};
ghost use Rattle.model.specs.Agree.{Alike, Rested};
ghost use Rattle.model.specs.Call.{outcome};
ghost use Rattle.twins.specs.Calls.{performs, SameCall, AlikeOutcomes};

use super::call::{Call, perform};
use model::Answer;
use parser::Parser;
use reader::{OpeningToken, Reader};
use source::Source;

// Makes a call on each of two readers. Where the calls are the same and the readers equal, so is all that comes of them. Where
// the readers differ in waits and the calls in patience, the readers differ in waits after, unless a call is worn out.
// No struct holds a call's buffer and patience: it would need clauses that it keeps its `&mut`.
pub fn both<S: Source, T: Source, P: Parser + Drop, Q: Parser + Drop>(
    one: &mut Reader<S>,
    other: &mut Reader<T>,
    call: Call<P>,
    same: Call<Q>,
    buf: &mut [u8],
    other_buf: &mut [u8],
    patience: u32,
    other_patience: u32,
) -> (Answer<OpeningToken>, Answer<OpeningToken>)
    ensures one { outcome result.0 one.new buf.new ≡ performs P.Parser.scan one.old call buf.old patience }
    ensures other { outcome result.1 other.new other_buf.new ≡ performs Q.Parser.scan other.old same other_buf.old other_patience }
    ensures equal { SameCall P.Parser.scan Q.Parser.scan call same → one.old ≡ other.old → buf.old ≡ other_buf.old → patience ≡ other_patience → outcome result.0 one.new buf.new ≡ outcome result.1 other.new other_buf.new }
    ensures waits { SameCall P.Parser.scan Q.Parser.scan call same → Alike one.old other.old → buf.old ≡ other_buf.old → Rested result.0 → Rested result.1 → AlikeOutcomes (outcome result.0 one.new buf.new) (outcome result.1 other.new other_buf.new) }
{
    perform_each(
        one,
        other,
        call,
        same,
        buf,
        other_buf,
        patience,
        other_patience,
    )
}

// The calls need not be the same.
fn perform_each<S: Source, T: Source, P: Parser + Drop, Q: Parser + Drop>(
    one: &mut Reader<S>,
    other: &mut Reader<T>,
    call: Call<P>,
    other_call: Call<Q>,
    buf: &mut [u8],
    other_buf: &mut [u8],
    patience: u32,
    other_patience: u32,
) -> (Answer<OpeningToken>, Answer<OpeningToken>)
    ensures one { outcome result.0 one.new buf.new ≡ performs P.Parser.scan one.old call buf.old patience }
    ensures other { outcome result.1 other.new other_buf.new ≡ performs Q.Parser.scan other.old other_call other_buf.old other_patience }
{
    let answer = perform(one, call, buf, patience);
    let other_answer = perform(other, other_call, other_buf, other_patience);
    (answer, other_answer)
}
