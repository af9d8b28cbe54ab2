// Examples at the edges. What they show of every input is proved; here it is run.
use super::*;
use std::process::Abort;
use std::test::Fail;

#[test]
fn rows_of_1_to_4048_words_are_admitted(rt: HostRuntime) {
    let row = [0; 4049];
    assert_eq!(rt;
        WordBank::admits(&row[0..0]),
        Err(Refusal::LengthNotAdmitted)
    );
    assert_eq!(rt; WordBank::admits(&row[0..1]), Ok(()));
    assert_eq!(rt; WordBank::admits(&row[0..4048]), Ok(()));
    assert_eq!(rt; WordBank::admits(&row), Err(Refusal::LengthNotAdmitted));
}

#[test]
fn a_row_that_is_not_admitted_is_handed_back(rt: HostRuntime) -> Result<(), Fail> {
    let mut words = [5; 4049];
    match WordBank::over(&mut words) {
        Ok(_) => Err(Fail::new("4,049 words are admitted")),
        Err(RowRefused { row, refusal }) => {
            assert_eq!(rt; row.len(), 4049);
            assert_eq!(rt; refusal, Refusal::LengthNotAdmitted);
            Ok(())
        }
    }
}

#[test]
fn cell_7_of_8_is_the_last(rt: HostRuntime) {
    let mut row = [0, 1, 2, 3, 4, 5, 6, 7];
    let mut bank = WordBank::new(&mut row);
    assert_eq!(rt; bank.size(), 8);
    assert_eq!(rt; bank.read(7), Ok(7));
    assert_eq!(rt; bank.read(8), Err(Refusal::NoSuchCell));
    assert_eq!(rt; bank.write(7, 70), Ok(()));
    assert_eq!(rt; bank.write(usize::MAX, 1), Err(Refusal::NoSuchCell));
    assert_eq!(rt; row, [0, 1, 2, 3, 4, 5, 6, 70]);
}

#[test]
fn a_window_ends_at_4048(rt: HostRuntime) {
    assert!(rt; Span::new(4048, 0).is_ok());
    assert_eq!(rt; Span::new(4048, 1).err(), Some(Refusal::WindowBeyondLimit));
    assert!(rt; Span::new(0, 4048).is_ok());
    assert_eq!(rt;
        Span::new(1, usize::MAX).err(),
        Some(Refusal::WindowBeyondLimit)
    );
}

// A window of four cells from cell 6 on, over a bank of eight.
fn shown<B: Bank + Drop>(rt: &impl Abort, bank: B) -> Result<(), Fail> {
    let mut window = Window::new(bank, Span::new(6, 4)?);
    assert_eq!(rt; window.size(), 2);
    assert_eq!(rt; window.read(1), Ok(7));
    assert_eq!(rt; window.read(2), Err(Refusal::NoSuchCell));
    assert_eq!(rt; window.read(usize::MAX), Err(Refusal::NoSuchCell));
    assert_eq!(rt; window.write(0, 60), Ok(()));
    let mut bank = window.finish();
    assert_eq!(rt; bank.read(6), Ok(60));
    Ok(())
}

#[test]
fn a_window_ends_with_the_bank_below(rt: HostRuntime) -> Result<(), Fail> {
    let mut row = [0, 1, 2, 3, 4, 5, 6, 7];
    shown(&rt, WordBank::new(&mut row))
}

#[test]
fn a_ninth_cell_sends_eight_down(rt: HostRuntime) -> Result<(), Fail> {
    let mut row = [0; 16];
    let mut bank = HoldBack::new(HoldBack::new(WordBank::new(&mut row)));
    for cell in (8..16).rev() {
        bank.write(cell, 1)?;
    }
    bank.write(12, 2)?;
    assert_eq!(rt; bank.held().len(), 8);
    bank.write(0, 3)?;
    assert_eq!(rt; bank.held(), [HeldCell { cell: 0, value: 3 }].as_slice());
    assert_eq!(rt; bank.read(12), Ok(2));
    settle_upper(&mut bank);
    assert_eq!(rt; bank.held().len(), 0);
    let lower = bank.finish();
    assert_eq!(rt; lower.held(), [HeldCell { cell: 0, value: 3 }].as_slice());
    Ok(())
}

fn cells_over(row: &mut [u16]) -> Result<usize, Refusal> {
    Ok(WordBank::over(row)?.size())
}

#[test]
fn a_refused_row_passes_its_refusal_on(rt: HostRuntime) {
    let mut words = [5; 4049];
    assert_eq!(rt; cells_over(&mut words), Err(Refusal::LengthNotAdmitted));
}

#[test]
fn a_refused_row_can_be_shown(rt: HostRuntime) -> Result<(), Fail> {
    let mut none: [u16; 0] = [];
    match WordBank::over(&mut none) {
        Ok(_) => Err(Fail::new("an empty row is admitted")),
        Err(refused) => {
            let shown = format!(in rt.alloc(); "{refused:?}")?;
            assert_eq!(rt;
                shown.as_str(),
                "RowRefused { row: [], refusal: LengthNotAdmitted }"
            );
            Ok(())
        }
    }
}

#[test]
fn a_held_cell_shows_its_number_and_value(rt: HostRuntime) -> Result<(), Fail> {
    let shown = HeldCell { cell: 3, value: 17 }.to_string(rt.alloc())?;
    assert_eq!(rt; shown.as_str(), "3=17");
    Ok(())
}
