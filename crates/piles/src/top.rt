// What can be asked of the top layer of a pile besides its cells.
use bank::{Bank, HeldCell, HoldBack, Window, WordBank};

// A layer holds nothing, unless it says otherwise.
pub trait Top {
    // The cells that the layer holds, in the order in which they came.
    fn held_on_top(&self) -> &[HeldCell] {
        &[]
    }

    // Sends down what the layer holds.
    fn settle_top(&mut self) {}
}

impl Top for WordBank<'_> {}

impl<B: Bank> Top for Window<B> {}

impl<B: Bank> Top for HoldBack<B> {
    fn held_on_top(&self) -> &[HeldCell] {
        self.held()
    }

    fn settle_top(&mut self) {
        self.settle();
    }
}
