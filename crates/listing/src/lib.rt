// A line that lists things: a word, and then each of them after a space.
#![tactic(auto)]

ghost use Rattle.std.specs.Prelude.{◌≡◌, Some};
ghost use Rattle.std.specs.Fmt.{◌++?◌};
ghost use Rattle.listing.specs.Listed.{each_after_a_space};

use std::fmt;

// The word, and what is listed after it.
#[derive(Clone, Copy, Debug)]
pub struct Listing<'a, T> {
    word: &'static str,
    items: &'a [T],
}

impl<'a, T> Listing<'a, T> {
    pub fn new(word: &'static str, items: &'a [T]) -> Listing<'a, T>
        ensures word { result.word.now ≡ word.now }
        ensures items { result.items.now ≡ items.now }
    {
        Listing { word, items }
    }
}

impl<T: fmt::Display> fmt::Display for Listing<'_, T> {
    ghost output = { λ l. Some l.word.now ++? each_after_a_space T.output l.items.now };

    fn fmt<W: fmt::Write>(&self, f: &mut fmt::Formatter<W>) -> fmt::Result {
        f.write_str(self.word)?;
        for item in self.items {
            write!(f, " {item}")?;
        }
        Ok(())
    }
}

#[cfg(test)]
mod tests {
    use super::*;
    use std::process::Abort;
    use std::test::Fail;

    #[test]
    fn each_item_comes_after_a_space(rt: HostRuntime) -> Result<(), Fail> {
        let row = Listing::new("row", &[1, 20, 300]).to_string(rt.alloc())?;
        assert_eq!(rt; row.as_str(), "row 1 20 300");
        Ok(())
    }

    #[test]
    fn with_no_item_the_word_stands_alone(rt: HostRuntime) -> Result<(), Fail> {
        let none: [u16; 0] = [];
        let held = Listing::new("held", &none).to_string(rt.alloc())?;
        assert_eq!(rt; held.as_str(), "held");
        Ok(())
    }
}
