ghost use Rattle.std.specs.Prelude.{◌≡◌, true, false, [], ◌∷◌, length, MatchResult, slice_set};
ghost use Rattle.refusal.specs.Labels.{label_of, labelled, reply_of};
ghost use Rattle.bank.specs.Rows.{admitted, admitting, row_cells, row_outside, SoundRow, row_few, row_words};

use super::{Bank, MOST};
use refusal::Refusal;

// A bank over a lent row of 1 to 4,048 words.
#[derive(Drop)]
pub struct WordBank<'a> {
    row: &'a mut [u16],
}

// A row that no bank can be over, handed back, and why.
#[derive(Debug, Drop)]
pub struct RowRefused<'a> {
    pub row: &'a mut [u16],
    pub refusal: Refusal,
}

impl<'a> From<RowRefused<'a>> for Refusal {
    ghost from_gives = { λ refused e. e ≡ refused.refusal };

    fn from(refused: RowRefused<'a>) -> Refusal {
        refused.refusal
    }
}

impl<'a> WordBank<'a> {
    // May a row of this length be a bank?
    pub fn admits(row: &[u16]) -> Result<(), Refusal>
        ensures { reply_of result ≡ admitting (length row.now) }
    {
        if row.is_empty() || row.len() > MOST {
            Err(Refusal::LengthNotAdmitted)
        } else {
            Ok(())
        }
    }

    // The bank over a row that `admits` lets pass; over any other it has no cells and is not sound.
    pub fn new(row: &'a mut [u16]) -> WordBank<'a>
        ensures row { result.row.now ≡ row.old }
        ensures place { result.row.ghost_name ≡ row.entry.ghost_name }
        ensures sound { admitted (length row.old) ≡ true → SoundRow result.row.now }
    {
        // That every element is a word is known once one of them is read.
        let _ = row.first();
        WordBank { row }
    }

    // `admits` and `new` in one. A row that is not admitted is handed back with the refusal. (A `TryFrom` would be the same call under another name.)
    pub fn over(row: &'a mut [u16]) -> Result<WordBank<'a>, RowRefused<'a>>
        ensures { MatchResult result (λ b. (b.row.now ≡ row.old) × (b.row.ghost_name ≡ row.entry.ghost_name) × SoundRow b.row.now) (λ e. (label_of e.refusal ≡ labelled 8 []) × (admitted (length row.old) ≡ false) × (e.row.now ≡ row.old) × (e.row.ghost_name ≡ row.entry.ghost_name)) }
    {
        match WordBank::admits(row) {
            Ok(()) => Ok(WordBank::new(row)),
            Err(refusal) => Err(RowRefused { row, refusal }),
        }
    }

    // The words that are cells: all of an admitted row, none of a longer one.
    fn words(&self) -> &[u16]
        ensures { result.now ≡ row_cells self.now.row.now }
    {
        if self.row.len() <= MOST {
            &*self.row
        } else {
            &[]
        }
    }

    // Hands the row back. (A `From` would not say what it makes. `place` says which memory it is, as in `new` and `over`; no type can.)
    pub fn into_row(self) -> &'a mut [u16]
        ensures row { result.now ≡ self.entry.row.now }
        ensures place { result.ghost_name ≡ self.entry.row.ghost_name }
    {
        let WordBank { row } = self;
        row
    }
}

impl<'a> Bank for WordBank<'a> {
    ghost cells = { λ b. row_cells b.row.now };

    ghost few = { λ b. row_few b.row.now };

    ghost sound = { λ b. SoundRow b.row.now };

    ghost fitting = { λ b s. row_words b.row.now s };

    ghost outside = { λ b. row_outside b.row.now ∷ [] };

    ghost fixed = { λ b. b.row.ghost_name ∷ [] };

    ghost idles = { λ b c. (c.row.now ≡ b.row.now) × (c.row.ghost_name ≡ b.row.ghost_name) };

    ghost takes = { λ b i v c. (c.row.now ≡ slice_set b.row.now i v) × (c.row.ghost_name ≡ b.row.ghost_name) };

    fn size(&mut self) -> usize {
        self.words().len()
    }

    fn read(&mut self, cell: usize) -> Result<u16, Refusal> {
        self.words().get(cell).copied().ok_or(Refusal::NoSuchCell)
    }

    fn write(&mut self, cell: usize, value: u16) -> Result<(), Refusal> {
        // By index: of what is written through a slice's `get_mut` a proof knows nothing.
        if cell < self.words().len() {
            self.row[cell] = value;
            Ok(())
        } else {
            Err(Refusal::NoSuchCell)
        }
    }
}
