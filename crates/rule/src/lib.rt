// Who yields where two open transactions meet on a cell.
#![tactic(auto)]

ghost use Rattle.std.specs.Prelude.{◌≡◌};
ghost use Rattle.rule.specs.Verdicts.{touched, invalidates, closes_over_a_reader, Enough, OnlyForCause, Lawful, closer_wins, newcomer_yields, elder_verdict, oldest_stands};
ghost use Rattle.rule.specs.declared.Contact.{Contact};
ghost use Rattle.rule.specs.declared.Verdict.{Verdict};
ghost use Rattle.std.proofs.Common.{rules};

use std::cmp::Ordering;

#[cfg(test)]
mod tests;

// What the caller asks for.
#[derive(Clone, Copy, PartialEq, Eq, Debug)]
pub enum Event {
    Read,
    Write,
    Close,
}

// One client in a contact: its number, the opening number of its transaction, and what that transaction has done to the cell.
#[derive(Clone, Copy, PartialEq, Eq, Debug)]
pub struct Side {
    pub client: u8,
    pub number: u32,
    pub read: bool,
    pub written: bool,
}

// A cell on which the caller meets one other client with an open transaction. The caller's side includes the request.
#[derive(Clone, Copy, PartialEq, Eq, Debug)]
pub struct Contact {
    pub event: Event,
    pub cell: u16,
    pub caller: Side,
    pub other: Side,
}

#[derive(Clone, Copy, PartialEq, Eq, Debug)]
pub enum Verdict {
    BothStand,
    CallerYields,
    OtherYields,
}

impl Side {
    // Has it read or written the cell?
    pub fn touched(&self) -> bool
        ensures { result ≡ touched self.now }
    {
        self.read || self.written
    }
}

impl Contact {
    // Has the caller written what the other has read?
    pub fn invalidates(&self) -> bool
        ensures { result ≡ invalidates self.now }
    {
        self.caller.written && self.other.read
    }

    // Does the caller close, having written what the other has read?
    fn closes_over_a_reader(&self) -> bool
        ensures { result ≡ closes_over_a_reader self.now }
    {
        self.event == Event::Close && self.invalidates()
    }

    // The smaller opening number stands; the caller yields if they are equal.
    fn elder_stands(&self) -> Verdict
        ensures { result ≡ elder_verdict self.now.caller.number self.now.other.number }
    {
        match self.caller.number.cmp(&self.other.number) {
            Ordering::Less => Verdict::OtherYields,
            Ordering::Equal | Ordering::Greater => Verdict::CallerYields,
        }
    }
}

// A rule is a function from contacts to verdicts. A question leaves the rule as it is.
pub trait Rule {
    ghost verdict: { Self → Contact → Verdict };

    fn judge(&self, contact: Contact) -> Verdict
        ensures { result ≡ verdict self.now contact };

    // The law of enough and the law of cause, which every rule proves. (A ghost member below the function is a law.)
    ghost enough: { (r : Self) → Enough (verdict r) };

    ghost cause: { (r : Self) → OnlyForCause (verdict r) };
}

// Whatever implements the trait is lawful.
pub fn each_rule_is_lawful<R: Rule>(rule: &R)
    ensures { Lawful (R.verdict rule.now) }
{}

// At a close, who has read what the closer has written yields.
#[derive(Clone, Copy)]
pub struct CloserWins;

impl Rule for CloserWins {
    ghost verdict = { λ _ k. closer_wins k };

    ghost enough = { Prim.search rules };

    ghost cause = { Prim.search rules };

    fn judge(&self, contact: Contact) -> Verdict {
        if contact.closes_over_a_reader() {
            Verdict::OtherYields
        } else {
            Verdict::BothStand
        }
    }
}

// The caller yields: at a read, to one that has written the cell; at a write, to one that has touched it; at a close, to one
// that has read what it has written.
#[derive(Clone, Copy)]
pub struct NewcomerYields;

impl Rule for NewcomerYields {
    ghost verdict = { λ _ k. newcomer_yields k };

    ghost enough = { Prim.search rules };

    ghost cause = { Prim.search rules };

    fn judge(&self, contact: Contact) -> Verdict {
        // Each event asks something else, so there is nothing to share with the other rules.
        let late = match contact.event {
            Event::Read => contact.other.written,
            Event::Write => contact.other.touched(),
            Event::Close => contact.invalidates(),
        };
        if late {
            Verdict::CallerYields
        } else {
            Verdict::BothStand
        }
    }
}

// At a close, of the closer and one that has read what it has written, the one with the larger opening number yields.
#[derive(Clone, Copy)]
pub struct OldestStands;

impl Rule for OldestStands {
    ghost verdict = { λ _ k. oldest_stands k };

    ghost enough = { Prim.search rules };

    ghost cause = { Prim.search rules };

    fn judge(&self, contact: Contact) -> Verdict {
        if contact.closes_over_a_reader() {
            contact.elder_stands()
        } else {
            Verdict::BothStand
        }
    }
}
