ghost use Rattle.std.specs.Prelude.{◌≡◌, ◌<◌, ◌≤◌, [], length, Some, IfSome, MatchResult};
ghost use Rattle.refusal.specs.Labels.{label_of, labelled};
ghost use Rattle.bank.specs.Cells.{Preserved, MovedBy};
ghost use Rattle.bank.specs.Holding.{held_text, held_by, held_over, replaced, replaced_few, replaced_words, SoundHeld, HoldSound, taken_in, staying, surplus, place_of, Sent, HoldIdles, HoldTakes, SentDown};

use super::Bank;
use arrayvec::ArrayVec;
use refusal::Refusal;
use std::fmt;

// How many cells a hold-back keeps.
const ROOM: usize = 8;

// A cell that is held back, with the value last written to it.
#[derive(Clone, Copy, Default, PartialEq, Eq, Debug)]
pub struct HeldCell {
    pub cell: usize,
    pub value: u16,
}

impl fmt::Display for HeldCell {
    ghost output = { λ h. Some (held_text h) };

    #[tactic(auto, unfolding(crate::specs::Holding::held_text))]
    fn fmt<W: fmt::Write>(&self, f: &mut fmt::Formatter<W>) -> fmt::Result {
        write!(f, "{}={}", self.cell, self.value)
    }
}

// A bank that keeps up to 8 written cells and means the bank below with those replaced.
// A ninth different cell first sends all eight down, in the order in which they came.
#[derive(Drop)]
pub struct HoldBack<B> {
    below: B,
    held: ArrayVec<HeldCell, ROOM>,
}

impl<B: Bank> HoldBack<B> {
    pub fn new(below: B) -> HoldBack<B>
        ensures below { result.below ≡ below }
        ensures held { held_by result ≡ [] }
        ensures sound { B.sound below → HoldSound B.sound B.cells result }
    {
        HoldBack {
            below,
            held: ArrayVec::new(),
        }
    }

    // The held cells, in the order in which they came.
    pub fn held(&self) -> &[HeldCell]
        ensures { result.now ≡ held_by self.now }
    {
        self.held.as_slice()
    }

    // The place of the newest value that is held for the cell. (A place and no reference, since a write replaces what is there.)
    fn newest(&self, cell: usize) -> Option<usize>
        ensures value { result ≡ place_of (held_by self.now) cell }
        ensures within { IfSome result (λ i. i < length (held_by self.now)) }
    {
        self.held.iter().rposition(|h| h.cell == cell)
    }

    // Sends what is held down, the oldest first. (`kept`: see `Bank`.)
    pub fn settle(&mut self)
        ensures settled { SentDown B.cells B.idles B.takes self.old self.new.below }
        ensures kept { Preserved B.sound B.outside B.fixed self.old.below self.new.below }
        ensures held { held_by self.new ≡ [] }
        ensures same { held_over B.cells self.new ≡ held_over B.cells self.old }
        ensures sound { HoldSound B.sound B.cells self.old → HoldSound B.sound B.cells self.new }
    {
        for h in &self.held {
            // A held cell is one of the bank below, so this is granted.
            let _ = self.below.write(h.cell, h.value);
        }
        // Not by `clear`, which is a call, for which each write would save its registers.
        self.held = ArrayVec::new();
    }

    // Hands the bank below back, after sending down what is held. (`kept`: see `Bank`.)
    pub fn finish(mut self) -> B
        ensures settled { SentDown B.cells B.idles B.takes self result }
        ensures kept { Preserved B.sound B.outside B.fixed self.below result }
    {
        self.settle();
        let HoldBack { below, held: _ } = self;
        below
    }

    // Where eight cells are held, sends them down. (`kept`: see `Bank`.)
    fn make_room(&mut self)
        ensures room { length (held_by self.new) < 8 }
        ensures held { held_by self.new ≡ staying (held_by self.old) }
        ensures below { B.cells self.new.below ≡ replaced (surplus (held_by self.old)) (B.cells self.old.below) }
        ensures kept { Preserved B.sound B.outside B.fixed self.old.below self.new.below }
        ensures way { Sent (MovedBy B.cells B.idles B.takes) self.old.below (surplus (held_by self.old)) self.new.below }
    {
        if self.held.is_full() {
            self.settle()
        }
    }

    // Is the cell one of the bank below? (`kept`: see `Bank`.)
    fn reach(&mut self, cell: usize) -> Result<(), Refusal>
        ensures value { MatchResult result (λ _. cell < length (B.cells self.old.below)) (λ e. (label_of e ≡ labelled 6 []) × (length (B.cells self.old.below) ≤ cell)) }
        ensures held { held_by self.new ≡ held_by self.old }
        ensures same { B.cells self.new.below ≡ B.cells self.old.below }
        ensures kept { Preserved B.sound B.outside B.fixed self.old.below self.new.below }
        ensures idle { B.idles self.old.below self.new.below }
    {
        if cell < self.below.size() {
            Ok(())
        } else {
            Err(Refusal::NoSuchCell)
        }
    }
}

#[tactic(auto, using(crate::proofs::Held::held_replies))]
impl<B: Bank> Bank for HoldBack<B> {
    ghost cells = { λ h. held_over B.cells h };

    ghost few = { λ h. replaced_few (held_by h) (B.cells h.below) (B.few h.below) };

    ghost sound = { λ h. HoldSound B.sound B.cells h };

    ghost fitting = { λ h s. replaced_words (held_by h) (B.cells h.below) (length (B.cells h.below)) (B.fitting h.below s.0) s.1.fit };

    ghost outside = { λ h. B.outside h.below };

    ghost fixed = { λ h. B.fixed h.below };

    ghost idles = { HoldIdles B.cells B.idles };

    ghost takes = { HoldTakes B.cells B.idles (MovedBy B.cells B.idles B.takes) };

    fn size(&mut self) -> usize {
        self.below.size()
    }

    fn read(&mut self, cell: usize) -> Result<u16, Refusal> {
        self.reach(cell)?;
        match self.newest(cell) {
            // By its place, as in `write`.
            Some(i) => Ok(self.held[i].value),
            None => self.below.read(cell),
        }
    }

    fn write(&mut self, cell: usize, value: u16) -> Result<(), Refusal> {
        self.reach(cell)?;
        if let Some(i) = self.newest(cell) {
            // By its place: the cell there is replaced.
            self.held[i] = HeldCell { cell, value };
        } else {
            self.make_room();
            self.held.push(HeldCell { cell, value });
        }
        Ok(())
    }
}

// Settles a hold-back that lies over another one, which then holds what was sent in the order in which it came.
// (`kept`: see `Bank`.)
pub fn settle_upper<B: Bank>(upper: &mut HoldBack<HoldBack<B>>)
    ensures settled { SentDown ⟦<HoldBack<B> as Bank>⟧.cells ⟦<HoldBack<B> as Bank>⟧.idles ⟦<HoldBack<B> as Bank>⟧.takes upper.old upper.new.below }
    ensures lower { SoundHeld (length (held_over B.cells upper.old.below)) (held_by upper.old) → held_by upper.new.below ≡ taken_in (held_by upper.old.below) (held_by upper.old) }
    ensures held { held_by upper.new ≡ [] }
    ensures sound { ⟦<HoldBack<HoldBack<B>> as Bank>⟧.sound upper.old → ⟦<HoldBack<HoldBack<B>> as Bank>⟧.sound upper.new }
    ensures same { ⟦<HoldBack<HoldBack<B>> as Bank>⟧.cells upper.new ≡ ⟦<HoldBack<HoldBack<B>> as Bank>⟧.cells upper.old }
    ensures kept { Preserved ⟦<HoldBack<B> as Bank>⟧.sound ⟦<HoldBack<B> as Bank>⟧.outside ⟦<HoldBack<B> as Bank>⟧.fixed upper.old.below upper.new.below }
{
    upper.settle();
}
