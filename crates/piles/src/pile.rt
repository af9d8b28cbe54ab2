// A pile: made layer by layer over a bank, asked what the lines ask, and taken apart.
use super::layers::Layers;
use super::line::{Action, Ask, Line};
use super::reply::Answer;
use super::top::Top;
use bank::{Bank, HoldBack, Span, Window};
use listing::Listing;
use refusal::{Refusal, Worded};
use std::io;
use std::slice::Iter;

// The lines that a pile may answer, and where the replies go.
#[derive(Drop)]
pub struct Turn<'a> {
    pub rt: &'a HostRuntime,
    pub lines: Iter<'a, Line>,
}

impl Turn<'_> {
    // Answers the lines up to the one that ends the pile.
    fn act<B: Bank + Top>(&mut self, bank: &mut B) -> io::Result<()> {
        for line in self.lines.by_ref() {
            match line {
                Ok(Action::Ask(ask)) => println!(self.rt; "{}", Worded(answer(bank, *ask)))?,
                Ok(Action::Pile(_) | Action::TakeApart) => return Ok(()),
                Err(error) => println!(self.rt; "{error}")?,
            }
        }
        Ok(())
    }

    // Answers through a window, and hands back the bank below.
    fn on_window<B: Bank + Drop>(&mut self, below: B, span: Span) -> io::Result<B> {
        let mut top = Window::new(below, span);
        self.act(&mut top)?;
        Ok(top.finish())
    }

    // Answers through a hold-back, and hands back the bank below.
    fn on_hold_back<B: Bank + Drop>(&mut self, below: B) -> io::Result<B> {
        let mut top = HoldBack::new(below);
        self.act(&mut top)?;
        self.send(top)
    }

    // Shows what the hold-back holds, sends it down and hands back the bank below.
    fn send<B: Bank + Drop>(&self, top: HoldBack<B>) -> io::Result<B> {
        println!(self.rt; "{}", Listing::new("sends", top.held()))?;
        Ok(top.finish())
    }

    // Lays the layers over the bank, answers through them, and hands the bank back. (Each kind of pile is a type of its own, so
    // there is no list of steps to go through.)
    pub(crate) fn on<B: Bank + Top + Drop>(
        &mut self,
        mut bank: B,
        layers: Layers<Span>,
    ) -> io::Result<B> {
        match layers {
            Layers::WordBank => {
                self.act(&mut bank)?;
                Ok(bank)
            }
            Layers::Window(span) => self.on_window(bank, span),
            Layers::HoldBack => self.on_hold_back(bank),
            Layers::WindowHoldBack(span) => {
                let held = self.on_window(HoldBack::new(bank), span)?;
                self.send(held)
            }
            Layers::HoldBackWindow(span) => {
                Ok(self.on_hold_back(Window::new(bank, span))?.finish())
            }
            Layers::HoldBackHoldBack => {
                let lower = self.on_hold_back(HoldBack::new(bank))?;
                self.send(lower)
            }
            Layers::WindowHoldBackWindow { lower, upper } => {
                let held = self.on_window(HoldBack::new(Window::new(bank, lower)), upper)?;
                Ok(self.send(held)?.finish())
            }
        }
    }
}

// What the bank answers to one line.
fn answer<B: Bank + Top>(bank: &mut B, ask: Ask) -> Result<Answer<'_>, Refusal> {
    match ask {
        Ask::Size => Ok(Answer::Size(bank.size())),
        Ask::Read { cell } => Ok(Answer::Value(bank.read(cell)?)),
        Ask::Write { cell, value } => {
            bank.write(cell, value)?;
            Ok(Answer::Written)
        }
        Ask::Held => Ok(Answer::Held(bank.held_on_top())),
        Ask::Settle => {
            bank.settle_top();
            Ok(Answer::Settled)
        }
    }
}
