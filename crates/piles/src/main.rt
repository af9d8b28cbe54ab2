// Piles of banks: makes a pile for each `p` line of the input, and answers every line.
// docs/PILES.md sets the lines out.
#![tactic(auto)]

mod layers;
mod line;
mod pile;
mod reply;
mod row;
mod top;

use bank::{Span, WordBank};
use layers::Layers;
use line::{Action, Line, Plan};
use listing::Listing;
use pile::Turn;
use refusal::Refusal;
use std::io::{self, BufRead, BufReader, Read};
use std::slice::Iter;

// How many bytes of the input are read.
const INPUT_LIMIT: u64 = 1_048_576;

// Every line of the input.
fn read_lines(rt: &HostRuntime) -> io::Result<Vec<Line>> {
    let heap = rt.alloc();
    BufReader::new(heap, rt.stdin().take(INPUT_LIMIT))?
        .split(heap, b'\n')
        .map(|text| -> io::Result<Line> { Ok(Action::try_from(text?.as_slice())) })
        .try_collect(heap)
}

// The layers of the pile, or why it cannot stand on the row.
fn admit(plan: &Plan, row: &[u16]) -> Result<Layers<Span>, Refusal> {
    WordBank::admits(row)?;
    plan.layers.try_into()
}

// Makes the pile, lets it answer its lines and takes it apart, or says why it cannot stand.
// Gives back the lines that are left.
fn stand<'a>(rt: &'a HostRuntime, plan: &Plan, lines: &'a [Line]) -> io::Result<Iter<'a, Line>> {
    let heap = rt.alloc();
    let made = row::fresh(heap, plan.length)?;
    let mut row = made.clone()?;
    let mut turn = Turn {
        rt,
        lines: lines.iter(),
    };
    match admit(plan, row.as_slice()) {
        Ok(layers) => {
            println!(rt; "pile")?;
            turn.on(WordBank::new(row.as_mut_slice()), layers)?;
            let changed = row::changes(heap, made.as_slice(), row.as_slice())?;
            println!(rt; "{}", Listing::new("row", changed.as_slice()))?;
        }
        Err(refusal) => println!(rt; "{refusal}")?,
    }
    Ok(turn.lines)
}

// Answers the lines from one `p` up to the next.
fn answer_part(rt: &HostRuntime, lines: &[Line]) -> io::Result<()> {
    let left = match lines {
        [Ok(Action::Pile(plan)), others @ ..] => stand(rt, plan, others)?,
        _ => lines.iter(),
    };
    for line in left {
        match line {
            Ok(_) => println!(rt; "no pile")?,
            Err(error) => println!(rt; "{error}")?,
        }
    }
    Ok(())
}

fn main(rt: HostRuntime) -> io::Result<()> {
    let lines = read_lines(&rt)?;
    for part in lines.chunk_by(|_, next| !matches!(next, Ok(Action::Pile(_)))) {
        answer_part(&rt, part)?;
    }
    Ok(())
}
