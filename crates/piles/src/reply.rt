// The lines of the output.
use bank::HeldCell;
use listing::Listing;
use std::fmt;

// What a pile answers to one line.
#[derive(Clone, Copy)]
pub enum Answer<'a> {
    Size(usize),
    Value(u16),
    Written,
    Held(&'a [HeldCell]),
    Settled,
}

impl fmt::Display for Answer<'_> {
    fn fmt<W: fmt::Write>(&self, f: &mut fmt::Formatter<W>) -> fmt::Result {
        match *self {
            Answer::Size(cells) => write!(f, "size {cells}"),
            Answer::Value(value) => write!(f, "{value}"),
            Answer::Written => write!(f, "ok"),
            Answer::Held(cells) => write!(f, "{}", Listing::new("held", cells)),
            Answer::Settled => write!(f, "settled"),
        }
    }
}
