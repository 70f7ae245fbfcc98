ghost use Rattle.std.specs.Prelude.{◌≡◌, min};
ghost use Rattle.source.specs.Bounds.{quota_bounded};
ghost use Rattle.source.specs.Sources.{quota_ready, quota_stream};
ghost use Rattle.source.specs.Stream.{limited};
ghost use Rattle.source.specs.declared.fault.Fault.TheVariants.{Quota as quota_fault};

use super::at_most::{show_at_most, take_at_most};
use super::{Fault, Look, Source};

// Gives no more than a number of bytes of the source below: a fault stands in the place of the next one.
#[derive(Drop)]
pub struct Quota<S: Source> {
    source: S,
    quota: u32,
    // how much of the quota is not yet taken
    left: u32,
}

impl<S: Source> Quota<S> {
    pub fn new(source: S, quota: u32) -> Quota<S>
        ensures stream { quota_stream S.Source.stream result ≡ limited (quota_fault quota) quota (S.Source.stream source) }
        ensures ready { quota_ready S.Source.ready result ≡ min quota (S.Source.ready source) }
    {
        Quota {
            source,
            quota,
            left: quota,
        }
    }
}

impl<S: Source> Source for Quota<S> {
    ghost stream = { quota_stream S.Source.stream };

    ghost ready = { quota_ready S.Source.ready };

    ghost bounded = { λ q. quota_bounded q.left (S.Source.stream q.source).items (S.Source.ready q.source) (S.Source.bounded q.source) };

    fn look(&mut self) -> Look {
        let seen = self.source.look();
        match seen {
            Look::Ready if self.left == 0 => Look::Fault(Fault::Quota(self.quota)),
            _ => seen,
        }
    }

    fn show(&self) -> &[u8] {
        show_at_most(&self.source, self.left as usize)
    }

    fn take(&mut self, n: usize) -> bool {
        let took = take_at_most(&mut self.source, self.left as usize, n);
        if took {
            self.left -= n as u32;
        }
        took
    }
}
