// Banks of cells: what a bank is, the word bank over a lent row, and two layers over any bank.
#![tactic(auto)]

ghost use Rattle.std.specs.Prelude.{◌≡◌, ℕ, ◌≤◌, List, length};
ghost use Rattle.refusal.specs.Labels.{reply_of};
ghost use Rattle.bank.specs.Cells.{FitWords, reading, writing, written, Preserved, MovedBy};

use refusal::Refusal;

mod hold_back;
mod span;
#[cfg(test)]
mod tests;
mod window;
mod word_bank;

pub use hold_back::{HeldCell, HoldBack, settle_upper};
pub use span::Span;
pub use window::Window;
pub use word_bank::{RowRefused, WordBank};

// The most cells that a bank may have.
pub const MOST: usize = 4048;

// A list of cells that can be read and written one at a time.
pub trait Bank {
    // The cells, numbered from 0.
    ghost cells: { Self → List ℕ };

    // The memory below is as its format asks. Every call keeps it so.
    ghost sound: { Self → Type 0 };

    // What of the memory below is not among the cells, stretch by stretch. No call moves it.
    ghost outside: { Self → List (List ℕ) };

    // What no call alters: how the layers lie, and the ghost names by which the owner of lent memory knows it again.
    ghost fixed: { Self → List ℕ };

    // How a call that writes nothing leaves the bank, layer by layer.
    ghost idles: { Self → Self → Type 0 };

    // How a granted write of a cell and a value leaves the bank, layer by layer.
    ghost takes: { Self → ℕ → ℕ → Self → Type 0 };

    // The number of cells. (`kept` stands on each call, here and elsewhere, since it ties what is after it to what was before, as no invariant can.)
    fn size(&mut self) -> usize
        ensures value { result ≡ length (cells self.old) }
        ensures same { cells self.new ≡ cells self.old }
        ensures kept { Preserved sound outside fixed self.old self.new }
        ensures idle { idles self.old self.new };

    // The cell of that number.
    fn read(&mut self, cell: usize) -> Result<u16, Refusal>
        ensures value { reply_of result ≡ reading (cells self.old) cell }
        ensures same { cells self.new ≡ cells self.old }
        ensures kept { Preserved sound outside fixed self.old self.new }
        ensures idle { idles self.old self.new };

    // Replaces that cell and no other.
    fn write(&mut self, cell: usize, value: u16) -> Result<(), Refusal>
        ensures value { reply_of result ≡ writing (cells self.old) cell }
        ensures after { cells self.new ≡ written (cells self.old) cell value }
        ensures kept { Preserved sound outside fixed self.old self.new }
        ensures moved { MovedBy cells idles takes self.old cell value self.new };

    // A bank has at most 4,048 cells.
    ghost few: { (b : Self) → length (cells b) ≤ 4048 };

    // Each cell of a sound bank holds a word.
    ghost fitting: { (b : Self) → sound b → FitWords (cells b) };
}
