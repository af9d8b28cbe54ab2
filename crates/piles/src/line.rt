// What a line asks for, and how it is read.
use super::layers::{AskedSpan, Layers};
use std::error::Error;
use std::fmt;
use std::str::{self, FromStr, Split};

// The longest row that can be asked for.
pub(crate) const LONGEST: u16 = 5000;

// How many digits a number may have.
const DIGITS: usize = 20;

// One line of the input.
pub type Line = Result<Action, NotAnAction>;

// What a line may ask for.
#[derive(Clone, Copy)]
pub enum Action {
    Pile(Plan),
    Ask(Ask),
    TakeApart,
}

// A pile that is asked for.
#[derive(Clone, Copy)]
pub struct Plan {
    pub length: u16,
    pub layers: Layers<AskedSpan>,
}

// What is asked of the pile that stands.
#[derive(Clone, Copy)]
pub enum Ask {
    Size,
    Read { cell: usize },
    Write { cell: usize, value: u16 },
    Held,
    Settle,
}

impl TryFrom<&[u8]> for Action {
    type Error = NotAnAction;

    fn try_from(line: &[u8]) -> Result<Action, NotAnAction> {
        str::from_utf8(line).map_err(|_| NotAnAction)?.parse()
    }
}

impl FromStr for Action {
    type Err = NotAnAction;

    fn from_str(line: &str) -> Result<Action, NotAnAction> {
        let mut fields = Fields(line.split(' '));
        let action = fields.action().ok_or(NotAnAction)?;
        match fields.0.next() {
            None => Ok(action),
            Some(_) => Err(NotAnAction),
        }
    }
}

// What of a line is not yet read: the fields between single spaces.
#[derive(Drop)]
struct Fields<'a>(Split<'a, char>);

impl Fields<'_> {
    // A letter with the numbers that belong to it.
    fn action(&mut self) -> Option<Action> {
        match self.0.next()? {
            "p" => Some(Action::Pile(self.plan()?)),
            "n" => Some(Action::Ask(Ask::Size)),
            "r" => Some(Action::Ask(Ask::Read {
                cell: self.number()?,
            })),
            "w" => Some(Action::Ask(Ask::Write {
                cell: self.number()?,
                value: self.word()?,
            })),
            "h" => Some(Action::Ask(Ask::Held)),
            "s" => Some(Action::Ask(Ask::Settle)),
            "e" => Some(Action::TakeApart),
            _ => None,
        }
    }

    // The numbers of a pile.
    fn plan(&mut self) -> Option<Plan> {
        let kind = self.number()?;
        let length = self.word().filter(|&length| length <= LONGEST)?;
        let lower = self.span()?;
        let upper = self.span()?;
        Some(Plan {
            length,
            layers: Layers::of_kind(kind, lower, upper)?,
        })
    }

    // The first cell and the length of a window.
    fn span(&mut self) -> Option<AskedSpan> {
        Some(AskedSpan {
            first: self.capped()?,
            length: self.capped()?,
        })
    }

    // A number of at most 65535.
    fn word(&mut self) -> Option<u16> {
        self.number()?.try_into().ok()
    }

    // A number, or 65535 in the place of a larger one.
    fn capped(&mut self) -> Option<u16> {
        Some(self.number()?.try_into().unwrap_or(u16::MAX))
    }

    // A number of 1 to 20 digits that fits 64 bits.
    fn number(&mut self) -> Option<usize> {
        let field = self.0.next()?;
        if field.len() > DIGITS || !field.bytes().all(|byte| byte.is_ascii_digit()) {
            return None;
        }
        field.parse().ok()
    }
}

// That a line asks for nothing. (By hand: one text, for which a derive would bring in a crate.)
#[derive(Clone, Copy, Debug)]
pub struct NotAnAction;

impl fmt::Display for NotAnAction {
    fn fmt<W: fmt::Write>(&self, f: &mut fmt::Formatter<W>) -> fmt::Result {
        write!(f, "not an action")
    }
}

impl Error for NotAnAction {}
