ghost use Rattle.std.specs.Prelude.{◌≡◌, ◌+◌, ◌-◌, ◌^◌, ◌<◌, ◌≤◌, max, length, take as front, if◌then◌else◌, nat_le};
ghost use Rattle.source.specs.Bounds.{narrow_bounded};
ghost use Rattle.source.specs.Sources.{narrow_ready, narrow_stream, room, width};
ghost use Rattle.source.specs.Stream.{bytes_of, passed, seen, without};

use super::at_most::{show_at_most, take_at_most};
use super::{Look, Source};

// Shows at most `most` bytes of the source below at a time, where 0 counts as 1.
#[derive(Drop)]
pub struct Narrow<S: Source> {
    source: S,
    most: u16,
    // how many of them were taken since the last look; all of them before the first
    taken: u16,
}

impl<S: Source> Narrow<S> {
    // Nothing is ready before the first look.
    pub fn new(source: S, most: u16) -> Narrow<S>
        ensures stream { narrow_stream S.Source.stream result ≡ S.Source.stream source }
        ensures ready { narrow_ready S.Source.ready result ≡ 0 }
        ensures width { width result ≡ max most 1 }
    {
        Narrow {
            source,
            most,
            taken: most.max(1),
        }
    }

    // How many bytes may be shown before the next look.
    fn room(&self) -> u16
        ensures value { result ≡ room self.now }
        ensures fits { self.now.taken + result < 2 ^ 16 }
    {
        self.most.max(1).saturating_sub(self.taken)
    }
}

impl<S: Source> Source for Narrow<S> {
    ghost stream = { narrow_stream S.Source.stream };

    ghost ready = { narrow_ready S.Source.ready };

    ghost bounded = { λ n. narrow_bounded (room n) (S.Source.bounded n.source) };

    // As many bytes may be shown again as the width says.
    fn look(&mut self) -> Look
        ensures answer { result ≡ seen (narrow_stream S.Source.stream self.old) }
        ensures after { narrow_stream S.Source.stream self.new ≡ passed (narrow_stream S.Source.stream self.old) }
        ensures some { result ≡ Look.Ready → 1 ≤ narrow_ready S.Source.ready self.new }
        ensures width { width self.new ≡ width self.old }
        ensures room { room self.new ≡ width self.old }
    {
        let seen = self.source.look();
        self.taken = 0;
        seen
    }

    fn show(&self) -> &[u8]
        ensures value { result.now ≡ front (narrow_ready S.Source.ready self.now) (bytes_of (narrow_stream S.Source.stream self.now)) }
        ensures len { length result.now ≡ narrow_ready S.Source.ready self.now }
        ensures width { length result.now ≤ width self.now }
    {
        show_at_most(&self.source, self.room() as usize)
    }

    fn take(&mut self, n: usize) -> bool
        ensures answer { result ≡ nat_le n (narrow_ready S.Source.ready self.old) }
        ensures after { narrow_stream S.Source.stream self.new ≡ (if result then without n (narrow_stream S.Source.stream self.old) else narrow_stream S.Source.stream self.old) }
        ensures count { narrow_ready S.Source.ready self.new ≡ (if result then narrow_ready S.Source.ready self.old - n else narrow_ready S.Source.ready self.old) }
        ensures width { width self.new ≡ width self.old }
    {
        let room = self.room() as usize;
        let took = take_at_most(&mut self.source, room, n);
        if took {
            self.taken += n as u16;
        }
        took
    }
}
