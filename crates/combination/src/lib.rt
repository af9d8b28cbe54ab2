// A combination: values for the first cells of a bank, written all or not at all, through any layers.
#![tactic(auto)]

ghost use Rattle.std.specs.Prelude.{◌≡◌, ◌+◌, true, length, if◌then◌else◌};
ghost use Rattle.refusal.specs.Labels.{reply_of};
ghost use Rattle.bank.specs.Cells.{Preserved, MovedBy};
ghost use Rattle.bank.specs.Rows.{admitted};
ghost use Rattle.combination.specs.Pressing.{overwritten, enough, pressing, pressed, PressWay, seen_through, row_pressing, row_pressed};

use bank::{Bank, HoldBack, Window, WordBank};
use refusal::Refusal;

mod windows;

pub use windows::Windows;

// Writes the values to the first cells in order or, where there are too few cells, writes none. (`kept`, here and below: see
// `Bank`.)
pub fn press<B: Bank>(bank: &mut B, values: &[u16]) -> Result<(), Refusal>
    ensures value { reply_of result ≡ pressing values.now (B.cells bank.old) }
    ensures after { B.cells bank.new ≡ pressed values.now (B.cells bank.old) }
    ensures kept { Preserved B.sound B.outside B.fixed bank.old bank.new }
    ensures way { PressWay B.idles (MovedBy B.cells B.idles B.takes) (enough values.now (B.cells bank.old)) values.now bank.old bank.new }
{
    if values.len() > bank.size() {
        return Err(Refusal::NoSuchCell);
    }
    for (cell, value) in values.iter().enumerate() {
        bank.write(cell, *value)?;
    }
    Ok(())
}

// The same through a window over a hold-back over a window. The bank below is handed back with everything sent down, whatever
// the reply, and so stands beside it.
fn press_through<B: Bank>(bank: B, windows: Windows, values: &[u16]) -> (B, Result<(), Refusal>)
    ensures value { reply_of result.1 ≡ pressing values.now (seen_through windows (B.cells bank)) }
    ensures after { B.cells result.0 ≡ (if enough values.now (seen_through windows (B.cells bank)) then overwritten (windows.inner.first + windows.outer.first) values.now (B.cells bank) else B.cells bank) }
    ensures kept { Preserved B.sound B.outside B.fixed bank result.0 }
{
    let Windows { inner, outer } = windows;
    let mut top = Window::new(HoldBack::new(Window::new(bank, inner)), outer);
    let reply = press(&mut top, values);
    (top.finish().finish().finish(), reply)
}

// The same on a lent row, which is handed back in the same way. (`place`: see `WordBank::into_row`.)
fn press_and_return<'a>(
    row: &'a mut [u16],
    windows: Windows,
    values: &[u16],
) -> (&'a mut [u16], Result<(), Refusal>)
    requires { admitted (length row.old) ≡ true }
    ensures value { reply_of result.1 ≡ pressing values.now (seen_through windows row.old) }
    ensures after { result.0.now ≡ (if enough values.now (seen_through windows row.old) then overwritten (windows.inner.first + windows.outer.first) values.now row.old else row.old) }
    ensures place { result.0.ghost_name ≡ row.entry.ghost_name }
{
    let (bank, reply) = press_through(WordBank::new(row), windows, values);
    (bank.into_row(), reply)
}

// Presses on a row through a window over a hold-back over a window, a pile of three layers, after which the row is known.
pub fn press_row(row: &mut [u16], windows: Windows, values: &[u16]) -> Result<(), Refusal>
    ensures value { reply_of result ≡ row_pressing windows values.now row.old }
    ensures after { row.new ≡ row_pressed windows values.now row.old }
{
    WordBank::admits(row)?;
    let (_, reply) = press_and_return(row, windows, values);
    reply
}

#[cfg(test)]
mod tests {
    use super::*;
    use bank::Span;
    use std::test::Fail;

    #[test]
    fn all_values_are_written_or_none(rt: HostRuntime) {
        let mut row = [9, 9, 9];
        let mut bank = WordBank::new(&mut row);
        assert_eq!(rt; press(&mut bank, &[1, 2, 3, 4]), Err(Refusal::NoSuchCell));
        assert_eq!(rt; press(&mut bank, &[1, 2]), Ok(()));
        assert_eq!(rt; row, [1, 2, 9]);
    }

    #[test]
    fn a_row_is_pressed_where_the_windows_lie(rt: HostRuntime) -> Result<(), Fail> {
        let windows = Windows {
            inner: Span::new(2, 8)?,
            outer: Span::new(1, 4)?,
        };
        let mut row = [9; 9];
        let reply = press_row(&mut row, windows, &[1, 2, 3, 4, 5]);
        assert_eq!(rt; reply, Err(Refusal::NoSuchCell));
        assert_eq!(rt; press_row(&mut row, windows, &[1, 2, 3, 4]), Ok(()));
        assert_eq!(rt; row, [9, 9, 9, 1, 2, 3, 4, 9, 9]);
        assert_eq!(rt;
            press_row(&mut [], windows, &[]),
            Err(Refusal::LengthNotAdmitted)
        );
        Ok(())
    }
}
