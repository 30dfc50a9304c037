//! What is proved of the machines, over any theory and any partner table: each function's contract is a theorem.
//! There is a function for each, so that each theorem has a name; one function with all the clauses would be refused whole where one of them fails.

ghost use Rattle.machine.specs.Keys.{KeyedPartners};
ghost use Rattle.machine.specs.Samples.{SampleRuns};
ghost use Rattle.machine.specs.Statements.{AlwaysSound, DoneIsExact, OneAnswer, RunsCount, SomeStep};

use table::partner::PartnerTable;
use theory::interface::Theory;

/// After an opening on valid rules and any list of calls: the abstract machine reaches a state that the sheet shows; the postings mean what the sheet still holds; where nothing waits, every rule was applied wherever it applies; no rule was applied to one tuple twice; what is admitted is what was told; and the limits hold.
pub fn always_sound<T: Theory, P: PartnerTable>() -> bool
    ensures { AlwaysSound T.Theory P.PartnerTable }
{
    true
}

/// Step answers done exactly when nothing waits and the theory stands as it begins, run exactly when that is so as it ends.
pub fn done_is_exact<T: Theory, P: PartnerTable>() -> bool
    ensures { DoneIsExact T.Theory P.PartnerTable }
{
    true
}

/// A run answers how many steps it made, at most as many as it was to make and as many where it was stopped; each changed the sheet, and a full one is not counted.
pub fn runs_count<T: Theory, P: PartnerTable>() -> bool
    ensures { RunsCount T.Theory P.PartnerTable }
{
    true
}

/// A call has one answer and one outcome, on a sheet and on any that no call can tell apart from it.
pub fn one_answer<T: Theory, P: PartnerTable>() -> bool
    ensures { OneAnswer T.Theory P.PartnerTable }
{
    true
}

/// Every state has a step, whatever its lists hold: what the theory and the table decide is enough to make one.
pub fn some_step<T: Theory, P: PartnerTable>() -> bool
    ensures { SomeStep T.Theory P.PartnerTable }
{
    true
}

/// With the rule "a kept, body b" and one `a`, a run of 5 steps is stopped after 5, and a longer one is done after 6. With the rule "a and a removed, body empty", a run is done after 4 steps with one `a`, and after 6 with two, having applied the rule to the tuple 1 2.
pub fn sample_runs<T: Theory, P: PartnerTable>() -> bool
    ensures { SampleRuns T.Theory P.PartnerTable }
{
    true
}

/// Seeking partners by keys misses nothing: in every state whose theory stands, each constraint of a tuple that fits has the key that its head is sought by.
pub fn keyed_partners<T: Theory, P: PartnerTable>() -> bool
    ensures { KeyedPartners T.Theory P.PartnerTable }
{
    true
}
