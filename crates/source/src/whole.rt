ghost use Rattle.std.specs.Prelude.{◌≡◌, length};
ghost use Rattle.source.specs.Bounds.{whole_bounded};
ghost use Rattle.source.specs.Sources.{whole_ready, whole_stream};
ghost use Rattle.source.specs.Stream.{plain};

use super::{Look, Source};

// A slice, all of it ready.
#[derive(Drop)]
pub struct Whole<'a> {
    rest: &'a [u8],
}

impl<'a> Whole<'a> {
    pub fn new(bytes: &'a [u8]) -> Whole<'a>
        ensures stream { whole_stream result ≡ plain bytes.now }
        ensures ready { whole_ready result ≡ length bytes.now }
    {
        Whole { rest: bytes }
    }
}

impl<'a> Source for Whole<'a> {
    ghost stream = { whole_stream };

    ghost ready = { whole_ready };

    ghost bounded = { λ w. whole_bounded w.rest.now };

    fn look(&mut self) -> Look {
        if self.rest.is_empty() {
            Look::End
        } else {
            Look::Ready
        }
    }

    fn show(&self) -> &[u8] {
        self.rest
    }

    fn take(&mut self, n: usize) -> bool {
        self.rest.split_off(..n).is_some()
    }
}
