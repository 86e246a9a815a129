ghost use Rattle.std.specs.Prelude.{◌≡◌, List, [], ◌∷◌, ◌++◌};
ghost use Rattle.world_rules.specs.declared.entry.Entry.{Entry};
ghost use Rattle.world_rules.specs.declared.life.Birth.{Birth};
ghost use Rattle.world_rules.specs.Book.{Book};
ghost use Rattle.world_rules.specs.Rules.{next};
ghost use Rattle.world_rules.specs.Births.{Terms};
ghost use Rattle.world_rules.specs.Told.{told, IsTold};
ghost use Rattle.world_rules.specs.Legal.{Legal};
ghost use Rattle.world_rules.specs.Lives.{Setting, IsRun};
ghost use Rattle.world_rules.specs.Report.{IsReportable};

use host_port::Engine;

/// The world that a journal tells goes on with each entry that is added, and with the births that the entry brings. It
/// computes nothing.
pub fn told_goes_on()
    ensures { (old new : Book) (entry : Entry) (more : List Birth) → IsTold old → new.births ≡ old.births ++ more →
        new.entries ≡ old.entries ++ entry ∷ [] → told new ≡ next new.births (told old) entry }
{}

/// A legal journal of process 1 tells its world by itself. It computes nothing.
pub fn a_legal_journal_tells()
    ensures { (terms : Terms) (book : Book) → terms.first.pid ≡ 1 → Legal terms book → IsTold book }
{}

/// The journal of a run can be reported. It computes nothing.
pub fn a_run_can_be_reported<E: Engine>()
    ensures { (setting : Setting E.Program) (book : Book) → IsRun setting book → IsReportable book }
{}
