// The numbered refusals of the whole library.
#![tactic(auto)]

ghost use Rattle.std.specs.Prelude.{◌≡◌, Some};
ghost use Rattle.refusal.specs.Labels.{label_of, text_of, worded};

use std::error::Error;
use std::fmt;

// Why a call was declined. Each case has its own number, and some carry values.
#[derive(Clone, Copy, PartialEq, Eq, Debug)]
pub enum Refusal {
    NoSuchClient,
    AlreadyOpen,
    NumbersUsedUp,
    NoTransaction,
    Yields { client: u8, cell: u16 },
    NoSuchCell,
    TableFull,
    LengthNotAdmitted,
    BlockNumberWrong { block: u8 },
    BlockCountWrong { block: u8 },
    BlockCheckWrong { block: u8 },
    WindowBeyondLimit,
    ListFull,
}

impl Refusal {
    // The number by which the rules know it. (The rules ask for it; no discriminant can be it, since some cases carry values.)
    pub fn number(&self) -> u8
        ensures { result ≡ (label_of self.now).number }
    {
        match *self {
            Refusal::NoSuchClient => 1,
            Refusal::AlreadyOpen => 2,
            Refusal::NumbersUsedUp => 3,
            Refusal::NoTransaction => 4,
            Refusal::Yields { .. } => 5,
            Refusal::NoSuchCell => 6,
            Refusal::TableFull => 7,
            Refusal::LengthNotAdmitted => 8,
            Refusal::BlockNumberWrong { .. } => 9,
            Refusal::BlockCountWrong { .. } => 10,
            Refusal::BlockCheckWrong { .. } => 11,
            Refusal::WindowBeyondLimit => 12,
            Refusal::ListFull => 13,
        }
    }
}

// (By hand: what a derived text says, no contract says.)
impl fmt::Display for Refusal {
    ghost output = { λ e. Some (text_of e) };

    #[tactic(auto, unfolding(crate::specs::Labels::text_of, crate::specs::Labels::wording))]
    fn fmt<W: fmt::Write>(&self, f: &mut fmt::Formatter<W>) -> fmt::Result {
        let n = self.number();
        match *self {
            Refusal::NoSuchClient => write!(f, "refused {n}: no such client"),
            Refusal::AlreadyOpen => write!(f, "refused {n}: already open"),
            Refusal::NumbersUsedUp => write!(f, "refused {n}: opening numbers used up"),
            Refusal::NoTransaction => write!(f, "refused {n}: no transaction held"),
            Refusal::Yields { client, cell } => write!(
                f,
                "refused {n}: yields to {client} at {cell}"
            ),
            Refusal::NoSuchCell => write!(f, "refused {n}: no such cell"),
            Refusal::TableFull => write!(f, "refused {n}: table full"),
            Refusal::LengthNotAdmitted => write!(f, "refused {n}: length not admitted"),
            Refusal::BlockNumberWrong { block } => write!(
                f,
                "refused {n}: wrong number in block {block}"
            ),
            Refusal::BlockCountWrong { block } => write!(
                f,
                "refused {n}: wrong count in block {block}"
            ),
            Refusal::BlockCheckWrong { block } => write!(
                f,
                "refused {n}: wrong check in block {block}"
            ),
            Refusal::WindowBeyondLimit => write!(f, "refused {n}: window beyond its limit"),
            Refusal::ListFull => write!(f, "refused {n}: list full"),
        }
    }
}

impl Error for Refusal {}

// A call's reply in words: what is granted, or the text of the refusal.
#[derive(Clone, Copy)]
pub struct Worded<T>(pub Result<T, Refusal>);

impl<T: fmt::Display> fmt::Display for Worded<T> {
    ghost output = { λ w. worded T.output w.0 };

    fn fmt<W: fmt::Write>(&self, f: &mut fmt::Formatter<W>) -> fmt::Result {
        match &self.0 {
            Ok(granted) => write!(f, "{granted}"),
            Err(refusal) => write!(f, "{refusal}"),
        }
    }
}

#[cfg(test)]
mod tests {
    use super::*;
    use std::process::Abort;
    use std::test::Fail;

    fn shows(rt: &(impl Abort + AllocGlobal), refusal: Refusal, text: &str) -> Result<(), Fail> {
        let shown = refusal.to_string(rt.alloc())?;
        assert_eq!(rt; shown.as_str(), text);
        Ok(())
    }

    #[test]
    fn numbers_run_from_1_to_13(rt: HostRuntime) {
        let all = [
            Refusal::NoSuchClient,
            Refusal::AlreadyOpen,
            Refusal::NumbersUsedUp,
            Refusal::NoTransaction,
            Refusal::Yields { client: 7, cell: 9 },
            Refusal::NoSuchCell,
            Refusal::TableFull,
            Refusal::LengthNotAdmitted,
            Refusal::BlockNumberWrong { block: 1 },
            Refusal::BlockCountWrong { block: 2 },
            Refusal::BlockCheckWrong { block: 3 },
            Refusal::WindowBeyondLimit,
            Refusal::ListFull,
        ];
        for (number, refusal) in (1..).zip(&all) {
            assert_eq!(rt; refusal.number(), number);
        }
    }

    #[test]
    fn texts_have_number_and_values(rt: HostRuntime) -> Result<(), Fail> {
        shows(&rt, Refusal::NoSuchClient, "refused 1: no such client")?;
        shows(
            &rt,
            Refusal::Yields {
                client: 7,
                cell: 4047,
            },
            "refused 5: yields to 7 at 4047",
        )?;
        shows(&rt, Refusal::NoSuchCell, "refused 6: no such cell")?;
        shows(
            &rt,
            Refusal::BlockCheckWrong { block: 15 },
            "refused 11: wrong check in block 15",
        )?;
        shows(&rt, Refusal::ListFull, "refused 13: list full")
    }

    #[test]
    fn a_reply_in_words_is_the_value_or_the_refusal(rt: HostRuntime) -> Result<(), Fail> {
        let granted = Worded(Ok(17)).to_string(rt.alloc())?;
        assert_eq!(rt; granted.as_str(), "17");
        let none: Result<u16, Refusal> = Err(Refusal::NoSuchCell);
        let declined = Worded(none).to_string(rt.alloc())?;
        assert_eq!(rt; declined.as_str(), "refused 6: no such cell");
        Ok(())
    }
}
