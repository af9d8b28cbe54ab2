ghost use Rattle.std.specs.Prelude.{◌≡◌, ◌∷◌};
ghost use Rattle.bank.specs.Windows.{windowed, beside, WindowIdles, WindowTakes, windowed_few, windowed_words};

use super::{Bank, Span};
use refusal::Refusal;

// The cells of a bank from a first one on, at most so many, fewer where the bank ends.
#[derive(Drop)]
pub struct Window<B> {
    below: B,
    span: Span,
}

impl<B: Bank> Window<B> {
    pub fn new(below: B, span: Span) -> Window<B>
        ensures below { result.below ≡ below }
        ensures span { result.span ≡ span }
    {
        Window { below, span }
    }

    // Hands the bank below back.
    pub fn finish(self) -> B
        ensures { result ≡ self.below }
    {
        let Window { below, span: _ } = self;
        below
    }
}

impl<B: Bank> Bank for Window<B> {
    ghost cells = { λ w. windowed w.span.first w.span.length (B.cells w.below) };

    ghost few = { λ w. windowed_few w.span.first w.span.length (B.cells w.below) w.span.fits };

    ghost sound = { λ w. B.sound w.below };

    ghost fitting = { λ w s. windowed_words w.span.first w.span.length (B.cells w.below) (B.fitting w.below s) };

    ghost outside = { λ w. beside w.span.first w.span.length (B.cells w.below) (B.outside w.below) };

    ghost fixed = { λ w. w.span.first ∷ w.span.length ∷ B.fixed w.below };

    ghost idles = { WindowIdles B.idles };

    ghost takes = { WindowTakes B.takes };

    fn size(&mut self) -> usize {
        self.below
            .size()
            .saturating_sub(self.span.first)
            .min(self.span.length)
    }

    fn read(&mut self, cell: usize) -> Result<u16, Refusal> {
        self.below.read(self.span.place(cell)?)
    }

    fn write(&mut self, cell: usize, value: u16) -> Result<(), Refusal> {
        self.below.write(self.span.place(cell)?, value)
    }
}
