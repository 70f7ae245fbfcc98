ghost use Rattle.std.specs.Prelude.{ℕ, List};
ghost use Rattle.parser.specs.Bytes.{Move, Moves, FedBytes, machine};
ghost use Rattle.parser.specs.Scan.{Fed};
ghost use Rattle.parser.specs.declared.errors.SyntaxError.{SyntaxError};

// A scanner that looks at one byte after another.
pub trait ByteParser {
    // What a byte does in a state.
    ghost next: { Self → ℕ → Move Self };

    // Takes one byte; true where it ends the construct.
    fn step(&mut self, b: u8) -> bool
        ensures { Moves (next self.old b) result self.new };
}

// Takes the bytes up to the one that ends the construct, and gives its place; none, where no byte does. A rule of the project: the
// run's elements are looked at one after another, with their index. Each scanner's `feed` is this call, by `feed_machine`: for
// all at once, as one impl, the fault that is due would be asked of `ByteParser` too.
pub fn feed_bytes<P: ByteParser>(parser: &mut P, bytes: &[u8]) -> Option<usize>
    ensures { FedBytes P.next parser.old parser.new bytes.now result }
{
    for (i, b) in bytes.iter().enumerate() {
        if parser.step(*b) {
            return Some(i);
        }
    }
    None
}

// The same, said of the faults that the caller names: the contract of a `feed` is read off the call, however its body goes on.
pub fn feed_machine<P: ByteParser>(parser: &mut P, bytes: &[u8]) -> Option<usize>
    ghost due: { P → List ℕ → SyntaxError }
    ensures { Fed (machine P.next due parser.old) (machine P.next due parser.new) bytes.now result }
{
    feed_bytes(parser, bytes)
}
