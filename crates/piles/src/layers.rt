// Which layers a pile has.
use bank::Span;
use refusal::Refusal;

// The layers over the word bank, named from the top down, and the span of each window.
#[derive(Clone, Copy)]
pub enum Layers<S> {
    WordBank,
    Window(S),
    HoldBack,
    WindowHoldBack(S),
    HoldBackWindow(S),
    HoldBackHoldBack,
    WindowHoldBackWindow { lower: S, upper: S },
}

impl Layers<AskedSpan> {
    // The layers of a kind. Its only window, or the lower of two, has the span `lower`. (A `TryFrom` of the number alone would
    // not have the spans.)
    pub(crate) fn of_kind(kind: usize, lower: AskedSpan, upper: AskedSpan) -> Option<Self> {
        match kind {
            0 => Some(Layers::WordBank),
            1 => Some(Layers::Window(lower)),
            2 => Some(Layers::HoldBack),
            3 => Some(Layers::WindowHoldBack(lower)),
            4 => Some(Layers::HoldBackWindow(lower)),
            5 => Some(Layers::HoldBackHoldBack),
            6 => Some(Layers::WindowHoldBackWindow { lower, upper }),
            _ => None,
        }
    }
}

// Where a window is asked to lie. It may reach beyond the limit. A number above 65535 stands as 65535, which is refused alike: the
// program holds every line of its input at once, so a line should be small.
#[derive(Clone, Copy)]
pub struct AskedSpan {
    pub first: u16,
    pub length: u16,
}

impl TryFrom<AskedSpan> for Span {
    type Error = Refusal;

    fn try_from(asked: AskedSpan) -> Result<Span, Refusal> {
        Span::new(asked.first.into(), asked.length.into())
    }
}

impl TryFrom<Layers<AskedSpan>> for Layers<Span> {
    type Error = Refusal;

    fn try_from(asked: Layers<AskedSpan>) -> Result<Layers<Span>, Refusal> {
        Ok(match asked {
            Layers::WordBank => Layers::WordBank,
            Layers::Window(span) => Layers::Window(span.try_into()?),
            Layers::HoldBack => Layers::HoldBack,
            Layers::WindowHoldBack(span) => Layers::WindowHoldBack(span.try_into()?),
            Layers::HoldBackWindow(span) => Layers::HoldBackWindow(span.try_into()?),
            Layers::HoldBackHoldBack => Layers::HoldBackHoldBack,
            Layers::WindowHoldBackWindow { lower, upper } => Layers::WindowHoldBackWindow {
                lower: lower.try_into()?,
                upper: upper.try_into()?,
            },
        })
    }
}
