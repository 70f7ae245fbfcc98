// What ends a text.
#[derive(Clone, Copy)]
pub enum TextEnd {
    Markup,
    Ref,
    Eof,
}

// What ends a reference.
#[derive(Clone, Copy)]
pub enum RefEnd {
    // `;`, which belongs to it
    Semicolon,
    Markup,
    Ref,
    Eof,
    // it does not begin with `&`
    NotRef,
}

// What a call wants to be pending.
#[derive(Clone, Copy)]
pub enum Pending {
    Nothing,
    Opening,
    // an opening behind which `!` was peeked
    Bang,
}
