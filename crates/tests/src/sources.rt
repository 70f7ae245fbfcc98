// Sources, looked at and emptied frame by frame.
use source::{Cut, Fault, Look, Narrow, Quota, Source, Whole};
use std::array;

// Looks, and takes what is then shown: the answer, and how many bytes those were.
fn step<S: Source>(source: &mut S) -> (Look, usize) {
    let look = source.look();
    let n = source.show().len();
    let _taken = source.take(n);
    (look, n)
}

fn steps<S: Source>(source: &mut S) -> [(Look, usize); 6] {
    array::from_fn(|_| step(source))
}

#[test]
fn cut_has_frames_waits_and_a_fault(rt: HostRuntime) {
    let mut cut = Cut::new(b"abcd", &[2, 0, 9, 5, 0], 7);
    let fault = Look::Fault(Fault::Broken(7));
    assert_eq!(rt;
        steps(&mut cut),
        [
            (Look::Ready, 2),
            (Look::Wait, 0),
            (Look::Ready, 2),
            (Look::Wait, 0),
            (fault, 0),
            (fault, 0),
        ]
    );
}

#[test]
fn quota_over_narrow_over_whole(rt: HostRuntime) {
    let mut empty = Whole::new(b"");
    let mut met = Quota::new(Narrow::new(Whole::new(b"abc"), 2), 3);
    let mut passed = Quota::new(Narrow::new(Whole::new(b"abc"), 0), 1);
    assert_eq!(rt;
        (empty.take(1), met.take(1)),
        (false, false),
        "nothing to take"
    );
    assert_eq!(rt;
        [
            step(&mut empty),
            step(&mut met),
            step(&mut met),
            step(&mut met),
            step(&mut passed),
            step(&mut passed),
        ],
        [
            (Look::End, 0),
            (Look::Ready, 2),
            (Look::Ready, 1),
            (Look::End, 0),
            (Look::Ready, 1),
            (Look::Fault(Fault::Quota(1)), 0),
        ]
    );
}
