use bank::Span;

// Two windows with a hold-back between them. The outer one counts the cells that the inner one shows.
#[derive(Clone, Copy)]
pub struct Windows {
    pub inner: Span,
    pub outer: Span,
}
