// Cases worked by hand, and machines and rules that do not keep the promises.
#![tactic(auto)]

ghost use Rattle.cases.specs.Worked.{WorkedCases};
ghost use Rattle.cases.specs.Wrong.{WrongMachinesAreRefused, BothLawsAreNeeded};

// The cases worked by hand come out as they should.
pub fn worked_cases()
    ensures { WorkedCases }
{}

// Each of eleven machines that differ from the step machine breaks a promise.
pub fn wrong_machines_are_refused()
    ensures { WrongMachinesAreRefused }
{}

// Neither law alone is enough: for each there is a rule that keeps it and breaks a promise.
pub fn both_laws_are_needed()
    ensures { BothLawsAreNeeded }
{}
