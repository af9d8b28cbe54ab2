ghost use Rattle.std.specs.Prelude.{◌≡◌, ◌+◌, ◌<◌, ◌≤◌, [], MatchResult};
ghost use Rattle.refusal.specs.Labels.{label_of, labelled, reply_as};
ghost use Rattle.bank.specs.Spans.{spanning};

use super::MOST;
use refusal::Refusal;

// Where a window lies: its first cell and its length, which together are at most 4,048.
#[derive(Clone, Copy)]
pub struct Span {
    pub first: usize,
    pub length: usize,
    ghost fits: { first + length ≤ 4048 },
}

impl Span {
    pub fn new(first: usize, length: usize) -> Result<Span, Refusal>
        ensures made { MatchResult result (λ s. (s.first ≡ first) × (s.length ≡ length)) (λ e. (label_of e ≡ labelled 12 []) × (4048 < first + length)) }
        ensures value { reply_as (λ s. (s.first, s.length)) result ≡ spanning first length }
    {
        if first <= MOST && length <= MOST - first {
            Ok(Span { first, length })
        } else {
            Err(Refusal::WindowBeyondLimit)
        }
    }

    // The number below of a cell of the window.
    pub(crate) fn place(&self, cell: usize) -> Result<usize, Refusal>
        ensures { MatchResult result (λ i. (i ≡ self.now.first + cell) × (cell < self.now.length)) (λ e. (label_of e ≡ labelled 6 []) × (self.now.length ≤ cell)) }
    {
        if cell < self.length {
            Ok(self.first + cell)
        } else {
            Err(Refusal::NoSuchCell)
        }
    }
}
