// The verdicts of the three rules, written out: 3 events, 3 orders of the opening numbers and 16 combinations of flags for
// each rule. Then examples of what the rules ask of a contact.
use super::*;
use std::process::Abort;

// What a side has done to the cell: has it read it, has it written it?
type Flags = (bool, bool);

// The order of the lines and of the columns of a table: nothing, read, written, both.
const ORDER: [Flags; 4] = [(false, false), (true, false), (false, true), (true, true)];

// The verdicts of a rule at one event and one order of the opening numbers: a line for what the caller has done, a column
// for what the other has done.
type Table = [[Verdict; 4]; 4];

const S: Verdict = Verdict::BothStand;

const C: Verdict = Verdict::CallerYields;

const O: Verdict = Verdict::OtherYields;

const BOTH_STAND: Table = [
    [S, S, S, S], // the caller has done nothing
    [S, S, S, S], // it has read
    [S, S, S, S], // it has written
    [S, S, S, S], // it has read and written
];

// The caller yields if the other has written.
const YIELDS_TO_A_WRITE: Table = [
    [S, S, C, C], // the caller has done nothing
    [S, S, C, C], // it has read
    [S, S, C, C], // it has written
    [S, S, C, C], // it has read and written
];

// The caller yields if the other has read or written.
const YIELDS_TO_A_TOUCH: Table = [
    [S, C, C, C], // the caller has done nothing
    [S, C, C, C], // it has read
    [S, C, C, C], // it has written
    [S, C, C, C], // it has read and written
];

// The caller yields if it has written and the other has read.
const WRITER_YIELDS: Table = [
    [S, S, S, S], // the caller has done nothing
    [S, S, S, S], // it has read
    [S, C, S, C], // it has written
    [S, C, S, C], // it has read and written
];

// The other yields if the caller has written and the other has read.
const READER_YIELDS: Table = [
    [S, S, S, S], // the caller has done nothing
    [S, S, S, S], // it has read
    [S, O, S, O], // it has written
    [S, O, S, O], // it has read and written
];

fn side_of(client: u8, number: u32, (read, written): Flags) -> Side {
    Side {
        client,
        number,
        read,
        written,
    }
}

fn met(event: Event, caller: Side, other: Side) -> Contact {
    Contact {
        event,
        cell: 9,
        caller,
        other,
    }
}

// A rule under test, and the runtime that ends a test that fails.
#[derive(Drop)]
struct RuleUnderTest<A, R> {
    rt: A,
    rule: R,
}

impl<A: Abort, R: Rule> RuleUnderTest<A, R> {
    // A line of a table.
    fn line_holds(&self, event: Event, caller: Side, number: u32, line: [Verdict; 4]) {
        for (flags, verdict) in ORDER.into_iter().zip(line) {
            let contact = met(event, caller, side_of(5, number, flags));
            assert_eq!(self.rt; self.rule.judge(contact), verdict, "{contact:?}");
        }
    }

    // The 16 verdicts of a table, at opening numbers of the caller and of the other.
    fn table_holds(&self, event: Event, caller: u32, other: u32, table: Table) {
        for (flags, line) in ORDER.into_iter().zip(table) {
            self.line_holds(event, side_of(2, caller, flags), other, line);
        }
    }

    // The 48 verdicts at an event: the caller's opening number is the smaller one, equal, the larger one.
    fn event_holds(&self, event: Event, [smaller, equal, larger]: [Table; 3]) {
        self.table_holds(event, 6, 7, smaller);
        self.table_holds(event, 7, 7, equal);
        self.table_holds(event, 7, 6, larger);
    }
}

#[test]
fn closer_wins(rt: HostRuntime) {
    let tested = RuleUnderTest {
        rt,
        rule: CloserWins,
    };
    tested.event_holds(Event::Read, [BOTH_STAND; 3]);
    tested.event_holds(Event::Write, [BOTH_STAND; 3]);
    tested.event_holds(Event::Close, [READER_YIELDS; 3]);
}

#[test]
fn newcomer_yields(rt: HostRuntime) {
    let tested = RuleUnderTest {
        rt,
        rule: NewcomerYields,
    };
    tested.event_holds(Event::Read, [YIELDS_TO_A_WRITE; 3]);
    tested.event_holds(Event::Write, [YIELDS_TO_A_TOUCH; 3]);
    tested.event_holds(Event::Close, [WRITER_YIELDS; 3]);
}

#[test]
fn oldest_stands(rt: HostRuntime) {
    let tested = RuleUnderTest {
        rt,
        rule: OldestStands,
    };
    let at_close = [READER_YIELDS, WRITER_YIELDS, WRITER_YIELDS];
    tested.event_holds(Event::Read, [BOTH_STAND; 3]);
    tested.event_holds(Event::Write, [BOTH_STAND; 3]);
    tested.event_holds(Event::Close, at_close);
}

#[test]
fn a_read_or_a_write_touches(rt: HostRuntime) {
    for (flags, touches) in ORDER.into_iter().zip([false, true, true, true]) {
        assert_eq!(rt; side_of(0, 1, flags).touched(), touches, "{flags:?}");
    }
}

#[test]
fn a_write_invalidates_what_the_other_has_read(rt: HostRuntime) {
    let nothing = side_of(0, 1, (false, false));
    let reader = side_of(1, 2, (true, false));
    let writer = side_of(2, 3, (false, true));
    assert!(rt; met(Event::Close, writer, reader).invalidates());
    assert!(rt; !met(Event::Close, reader, writer).invalidates());
    assert!(rt; !met(Event::Close, writer, writer).invalidates());
    assert!(rt; !met(Event::Close, reader, reader).invalidates());
    assert!(rt; !met(Event::Close, writer, nothing).invalidates());
    assert!(rt; !met(Event::Close, nothing, reader).invalidates());
    assert!(rt; met(Event::Read, writer, reader).invalidates());
}
