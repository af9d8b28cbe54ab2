// A general piston of forty cells, set through a pile of layers on a row of words and read back.
#![tactic(auto)]

use bank::{Bank, HoldBack, Span, Window, WordBank};
use combination::Windows;
use listing::Listing;
use refusal::Worded;
use std::io;

// Where the general pistons' forty cells lie on the row.
const FIRST: usize = 4;

const CELLS: usize = 40;

// A combination that tells its cells apart: cell i has i in both bytes.
fn numbered() -> [u16; CELLS] {
    let mut piston = [0; CELLS];
    for (i, cell) in (0..).zip(&mut piston) {
        *cell = u16::from_le_bytes([i, i]);
    }
    piston
}

fn print_row(rt: &HostRuntime, row: &[u16]) -> io::Result<()> {
    println!(rt; "{}", Listing::new("row", row))
}

fn print_held<B: Bank>(rt: &HostRuntime, bank: &HoldBack<B>) -> io::Result<()> {
    println!(rt; "{}", Listing::new("held", bank.held()))
}

// Writes the combination cell by cell.
fn set<B: Bank>(rt: &HostRuntime, bank: &mut B, piston: &[u16]) -> io::Result<()> {
    for (cell, value) in piston.iter().enumerate() {
        let reply = Worded(bank.write(cell, *value).map(|()| "ok"));
        println!(rt; "set {cell} to {value}: {reply}")?;
    }
    Ok(())
}

// Reads so many cells, and the one after them. (The numbers count: there is no list to go over.)
fn read_back<B: Bank>(rt: &HostRuntime, bank: &mut B, cells: usize) -> io::Result<()> {
    for cell in 0..=cells {
        let reply = Worded(bank.read(cell));
        println!(rt; "read {cell}: {reply}")?;
    }
    Ok(())
}

// Sets the combination through a hold-back over a window over the bank, settles, reads it back, and hands the bank back.
fn play<B: Bank + Drop>(rt: &HostRuntime, bank: B, span: Span, piston: &[u16]) -> io::Result<B> {
    let mut top = HoldBack::new(Window::new(bank, span));
    set(rt, &mut top, piston)?;
    print_held(rt, &top)?;
    top.settle();
    println!(rt; "settled")?;
    print_held(rt, &top)?;
    read_back(rt, &mut top, piston.len())?;
    Ok(top.finish().finish())
}

// Presses the combination into the cells of the span, and shows the row.
fn press(rt: &HostRuntime, row: &mut [u16], span: Span, values: &[u16]) -> anyhow::Result<()> {
    let cells = values.len();
    let windows = Windows {
        inner: Span::new(0, bank::MOST)?,
        outer: span,
    };
    let reply = Worded(combination::press_row(row, windows, values).map(|()| "ok"));
    println!(rt; "press {cells} cells: {reply}")?;
    print_row(rt, row)?;
    Ok(())
}

fn run(rt: &HostRuntime) -> anyhow::Result<()> {
    let mut row = [1; FIRST + CELLS + 4];
    print_row(rt, &row)?;
    let span = Span::new(FIRST, CELLS)?;
    WordBank::admits(&row)?;
    play(rt, WordBank::new(&mut row), span, &numbered())?;
    print_row(rt, &row)?;
    // The general cancel, and one cell too many.
    press(rt, &mut row, span, &[0; CELLS])?;
    press(rt, &mut row, span, &[2; CELLS + 1])
}

fn main(rt: HostRuntime) -> anyhow::Result<()> {
    run(&rt)
}
