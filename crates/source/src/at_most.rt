ghost use Rattle.std.specs.Prelude.{◌≡◌, ◌-◌, min, length, take as front, if◌then◌else◌, nat_le};
ghost use Rattle.source.specs.Stream.{bytes_of, without};

use super::Source;

// Of the bytes that a source shows, at most so many.
pub(crate) fn show_at_most<S: Source>(source: &S, most: usize) -> &[u8]
    ensures value { result.now ≡ front (min most (S.ready source.now)) (bytes_of (S.stream source.now)) }
    ensures len { length result.now ≡ min most (S.ready source.now) }
{
    let shown = source.show();
    &shown[..shown.len().min(most)]
}

// Removes n of them; false, and nothing changes, where there are fewer.
pub(crate) fn take_at_most<S: Source>(source: &mut S, most: usize, n: usize) -> bool
    ensures answer { result ≡ nat_le n (min most (S.ready source.old)) }
    ensures after { S.stream source.new ≡ (if result then without n (S.stream source.old) else S.stream source.old) }
    ensures count { S.ready source.new ≡ (if result then S.ready source.old - n else S.ready source.old) }
{
    n <= most && source.take(n)
}
