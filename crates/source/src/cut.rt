ghost use Rattle.std.specs.Prelude.{◌≡◌, ◌-◌, ◌≤◌, length, if◌then◌else◌, nat_le, slice_index};
ghost use Rattle.source.specs.Bounds.{cut_bounded};
ghost use Rattle.source.specs.Cuts.{cut_at, less, pieces, sizes};
ghost use Rattle.source.specs.Sources.{cut_ready, cut_stream, frames};
ghost use Rattle.source.specs.Stream.{passed, seen, without};

use super::{Fault, Look, Source};

// A slice shown frame by frame, with waits between, as a list of entries says.
#[derive(Drop)]
pub struct Cut<'a> {
    // what is left of the frame that is shown
    shown: &'a [u8],
    // the bytes behind it
    rest: &'a [u8],
    entries: &'a [u8],
    code: u8,
}

impl<'a> Cut<'a> {
    // An entry 0 is a wait, and any other a frame of so many bytes, or of those that remain: once none do, only waits count.
    // Behind the entries one more frame holds the rest. A code other than 0 puts that fault in the place of the end. The rules
    // give both as 8-bit numbers, as recorded cases do, so 0 stands for the wait and for the end.
    pub fn new(bytes: &'a [u8], entries: &'a [u8], code: u8) -> Cut<'a>
        ensures stream { cut_stream result ≡ cut_at entries.now bytes.now code }
        ensures ready { cut_ready result ≡ 0 }
        ensures frames { frames result ≡ sizes entries.now (length bytes.now) }
    {
        Cut {
            shown: &[],
            rest: bytes,
            entries,
            code,
        }
    }
}

impl<'a> Source for Cut<'a> {
    ghost stream = { cut_stream };

    ghost ready = { cut_ready };

    ghost bounded = { λ c. cut_bounded c.shown.now (pieces c.entries.now c.rest.now) };

    // Shows all that is left of the frame, or else the whole of the next one.
    fn look(&mut self) -> Look
        ensures answer { result ≡ seen (cut_stream self.old) }
        ensures after { cut_stream self.new ≡ passed (cut_stream self.old) }
        ensures some { result ≡ Look.Ready → 1 ≤ cut_ready self.new }
        ensures frames { frames self.new ≡ frames self.old }
        ensures first { result ≡ Look.Ready → cut_ready self.new ≡ slice_index (frames self.old) 0 }
    {
        if !self.shown.is_empty() {
            return Look::Ready;
        }
        while let [entry, later @ ..] = self.entries {
            self.entries = later;
            if *entry == 0 {
                return Look::Wait;
            }
            let (shown, rest) = self.rest.split_at(self.rest.len().min(*entry as usize));
            self.shown = shown;
            self.rest = rest;
            if !shown.is_empty() {
                return Look::Ready;
            }
        }
        self.shown = self.rest;
        self.rest = &[];
        if !self.shown.is_empty() {
            Look::Ready
        } else if self.code == 0 {
            Look::End
        } else {
            Look::Fault(Fault::Broken(self.code))
        }
    }

    fn show(&self) -> &[u8] {
        self.shown
    }

    fn take(&mut self, n: usize) -> bool
        ensures answer { result ≡ nat_le n (cut_ready self.old) }
        ensures after { cut_stream self.new ≡ (if result then without n (cut_stream self.old) else cut_stream self.old) }
        ensures count { cut_ready self.new ≡ (if result then cut_ready self.old - n else cut_ready self.old) }
        ensures frames { frames self.new ≡ (if result then less n (frames self.old) else frames self.old) }
    {
        self.shown.split_off(..n).is_some()
    }
}
