// Streams of bytes and waits, and the sources that lend them.
#![tactic(auto)]

mod at_most;
mod cut;
mod fault;
mod narrow;
mod quota;
mod whole;

ghost use Rattle.std.specs.Prelude.{◌≡◌, ℕ, ◌-◌, ◌≤◌, length, take as front, if◌then◌else◌, nat_le};
ghost use Rattle.source.specs.Stream.{Stream, lead, bytes_of, seen, passed, without};

pub use cut::Cut;
pub use fault::{Fault, Look};
pub use narrow::Narrow;
pub use quota::Quota;
pub use whole::Whole;

// Lends bytes, as they come in. A source stands for a list of items, each a byte or a wait, and for what stands behind the
// last: the end or a fault. Of the bytes before the next wait the first few are ready, and those it shows.
pub trait Source {
    // the items to come, and what stands behind them
    ghost stream: { Self → Stream };

    // how many bytes are ready
    ghost ready: { Self → ℕ };

    // no more than the bytes before the next wait or the end: each source proves it
    ghost bounded: { (s : Self) → ready s ≤ lead (stream s).items };

    // Where a wait stands first, passes it and says so. Where a byte does, at least one is ready after.
    // Where no item is left, says what stands behind them, now and at every later look.
    fn look(&mut self) -> Look
        ensures answer { result ≡ seen (stream self.old) }
        ensures after { stream self.new ≡ passed (stream self.old) }
        ensures some { result ≡ Look.Ready → 1 ≤ ready self.new };

    // The bytes that are ready: nothing changes.
    fn show(&self) -> &[u8]
        ensures value { result.now ≡ front (ready self.now) (bytes_of (stream self.now)) }
        ensures len { length result.now ≡ ready self.now };

    // Removes n of the bytes that are ready; false, and nothing changes, where there are fewer.
    fn take(&mut self, n: usize) -> bool
        ensures answer { result ≡ nat_le n (ready self.old) }
        ensures after { stream self.new ≡ (if result then without n (stream self.old) else stream self.old) }
        ensures count { ready self.new ≡ (if result then ready self.old - n else ready self.old) };
}
