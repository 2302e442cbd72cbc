//! The definitions of sheets, calls, rollbacks and runs stand in specs/. Each function here carries a law over them, which
//! is its contract; none does anything.
#![tactic(auto)]

ghost use Rattle.model.specs.Examples.{ExamplesShow};
ghost use Rattle.model.specs.Histories.{LawOverEveryRun};
ghost use Rattle.model.specs.Laws.{SheetsAreOrderly, AfterIsReachedByArrows, StruckSetIsTheLeast, AbortsFall};
ghost use Rattle.model.specs.Laws.{ListingsAreExact, ListingsStay, RepliesTell};
ghost use Rattle.model.specs.Summaries.{PrivateEntriesChangeNoSummary, PrivateStepsHaveNoStanding};

/// The eight worked examples, computed from the definitions.
pub fn examples_show()
    ensures { ExamplesShow }
{}

/// The law over every run: the order of undos, each finish as the reference book has it, the host that follows the
/// sheet, and private entries that change no answer.
pub fn law_over_every_run()
    ensures { LawOverEveryRun }
{}

/// What holds of every sheet: which numbers have rows, and which states, phases and rollbacks go together.
pub fn sheets_are_orderly()
    ensures { SheetsAreOrderly }
{}

/// The computed 'after' agrees with the relation: a path of arrows leads there, be it a single one.
pub fn after_is_reached_by_arrows()
    ensures { AfterIsReachedByArrows }
{}

/// What a partial abort strikes has the backward part, and no committed row outside is after one inside. Each such set holds it.
pub fn struck_set_is_the_least()
    ensures { StruckSetIsTheLeast }
{}

/// What becomes of each row in an accepted abort.
pub fn aborts_fall()
    ensures { AbortsFall }
{}

/// What is in a listing: each arrow of the compensating graph and each restart point, none twice, in rising order, and no more.
pub fn listings_are_exact()
    ensures { ListingsAreExact }
{}

/// As long as a rollback lasts, its listing does not change.
pub fn listings_stay()
    ensures { ListingsStay }
{}

/// Each field of a reply, read back from its bytes.
pub fn replies_tell()
    ensures { RepliesTell }
{}

/// The summary of a sheet is the same whatever the private entries are.
pub fn private_entries_change_no_summary()
    ensures { PrivateEntriesChangeNoSummary }
{}

/// Of a private step a summary tells nothing.
pub fn private_steps_have_no_standing()
    ensures { PrivateStepsHaveNoStanding }
{}
