ghost use Rattle.std.specs.Prelude.{◌≡◌};
ghost use Rattle.model.specs.Told.{told as told_of, refused_told};

use super::answer::{Answer, ReadRef, ReadText, Refusal, Refused, Told};

impl Refusal {
    pub fn told(&self) -> Told
        ensures { result ≡ refused_told self.now }
    {
        Told {
            number: self.error.number(),
            written: self.written,
            taken: self.taken,
        }
    }
}

impl<T> Answer<T> {
    // What the answer tells, whichever call gave it.
    pub fn told(&self) -> Told
        ensures { result ≡ told_of self.now }
    {
        let (written, taken) = match self {
            Answer::Text(
                Ok(ReadText::UpToMarkup(w) | ReadText::UpToRef(w) | ReadText::UpToEof(w)),
            ) => (*w, *w),
            Answer::Text(Ok(ReadText::Markup | ReadText::Ref)) => (0, 0),
            Answer::Ref(
                Ok(
                    ReadRef::Ref(w)
                    | ReadRef::UpToRef(w)
                    | ReadRef::UpToMarkup(w)
                    | ReadRef::UpToEof(w),
                ),
            ) => (*w, *w),
            Answer::Peek(Ok(_)) => (0, 1),
            Answer::With(Ok(w)) | Answer::Bang(Ok((_, w))) => (*w, w.saturating_sub(1)),
            Answer::Abandon(Ok(())) => (0, 0),
            Answer::Text(Err(refusal))
            | Answer::Ref(Err(refusal))
            | Answer::Peek(Err(refusal))
            | Answer::With(Err(Refused::Spent(refusal)))
            | Answer::Bang(Err(Refused::Spent(refusal)))
            | Answer::Abandon(Err(Refused::Spent(refusal))) => return refusal.told(),
            Answer::With(Err(Refused::Kept(error, _)))
            | Answer::Bang(Err(Refused::Kept(error, _)))
            | Answer::Abandon(Err(Refused::Kept(error, _))) => {
                return Told {
                    number: error.number(),
                    written: 0,
                    taken: 0,
                };
            }
        };
        Told {
            number: 0,
            written,
            taken,
        }
    }
}
