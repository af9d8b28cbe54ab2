// The step machine of the engine, and what its runs keep.
#![tactic(auto)]

ghost use Rattle.machine.specs.States.{DeclinedCallsChangeNothing, ContactsAreProper, OnlyProperContactsCount};
ghost use Rattle.machine.specs.Promises.{CommitsAreSerial, ReadsAreConsistent, YieldsAreCaused, StatesAreSound, NoOtherChanges, EveryCallKeeps, NewEngineKeeps, ListsOfCallsLead};

// What a transaction has of one cell: the value read, if it has read the bank, and the value to be written, if any.
#[derive(Clone, Copy, PartialEq, Eq, Debug)]
pub struct Entry {
    pub cell: u16,
    pub read: Option<u16>,
    pub written: Option<u16>,
}

// What the laws suppose of a contact, every contact has that the machine puts to the rule.
pub fn contacts_are_proper()
    ensures { ContactsAreProper }
{}

// No other contact counts: rules that agree on the proper ones make the same step.
pub fn only_proper_contacts_count()
    ensures { OnlyProperContactsCount }
{}

// Serial commits: the cells, and all reads of committed transactions, are those of the committed transactions run alone
// in commit order.
pub fn commits_are_serial()
    ensures { CommitsAreSerial }
{}

// Consistent reads: in any other transaction each read made before its own write of the cell shows the cells as they
// stood at its last granted read.
pub fn reads_are_consistent()
    ensures { ReadsAreConsistent }
{}

// Caused yields: nobody yields but to another open transaction, over a cell that both touched and one wrote.
pub fn yields_are_caused()
    ensures { YieldsAreCaused }
{}

// No client begins, goes on, is marked or ends in any other way than those listed; each mark and each yield has its cause.
pub fn no_other_changes()
    ensures { NoOtherChanges }
{}

// The counts, the clients, the tables and the transactions held, in every state that a log leads to.
pub fn states_are_sound()
    ensures { StatesAreSound }
{}

// A declined call changes nothing, but that number 5 ends the caller's transaction.
pub fn declined_calls_change_nothing()
    ensures { DeclinedCallsChangeNothing }
{}

// All of this holds of the empty log and a new engine.
pub fn new_engine_keeps()
    ensures { NewEngineKeeps }
{}

// All of this holds of the log with one more call, and each client has changed in one of few ways.
pub fn every_call_keeps()
    ensures { EveryCallKeeps }
{}

// Every list of calls gives a log that leads from a new engine to the state after them.
pub fn lists_of_calls_lead()
    ensures { ListsOfCallsLead }
{}
