ghost use Rattle.std.specs.Prelude.{◌≡◌, false};
ghost use Rattle.reader.specs.State.{the_token};

// Stands for a `<` that was peeked, and says whether that opening is still pending. Its field is private.
pub struct Token<const PENDING: bool> {
    seal: (),
}

// The token of a pending opening. Only peek_one makes one, and only read_with, read_bang_element and abandon spend one: it can
// not be let go.
pub type OpeningToken = Token<true>;

// Nothing meets this contract at a token of a pending opening, so a program that forgets one is not proved.
impl<const PENDING: bool> Drop for Token<PENDING> {
    fn drop(self)
        requires { PENDING ≡ false }
    {
        let Token { seal: _ } = self;
    }
}

impl Token<true> {
    pub(crate) fn new() -> OpeningToken
        ensures { result ≡ the_token }
    {
        Token { seal: () }
    }

    // The opening is no longer pending, so what is left of the token may be let go.
    pub(crate) fn spend(self) {
        let Token { seal } = self;
        let _spent: Token<false> = Token { seal };
    }
}
