//! Laws of reports.
ghost use Rattle.std.specs.Prelude.{◌≡◌, ℕ, true, false, List};
ghost use Rattle.std.specs.List.{list_all};
ghost use Rattle.mail_wire.specs.Octets.{is_ascii};
ghost use Rattle.mime_tree.specs.declared.entity.Entity.{Entity};
ghost use Rattle.mime_tree.specs.Tree.{HasTree};
ghost use Rattle.utf8_reports.specs.declared.failure.Failure.{Failure};
ghost use Rattle.utf8_reports.specs.declared.failure.Report.{Report};
ghost use Rattle.utf8_reports.specs.Destinations.{is_global};
ghost use Rattle.utf8_reports.specs.Reports.{IsFailure, IsReportOn, SaysReport};

/// A failure to deliver a message has one report.
pub fn reports_are_one()
    ensures { (failure : Failure) (msg octets other : List ℕ) → IsReportOn failure msg octets → IsReportOn failure msg other → octets ≡ other }
{}

/// Each failure to deliver a message with a tree has a report.
pub fn reports_are_there()
    ensures { (failure : Failure) (msg : List ℕ) (entities : List Entity) → IsFailure failure → HasTree msg entities
        → (octets : List ℕ) × IsReportOn failure msg octets }
{}

/// A report says one thing.
pub fn reports_say_one()
    ensures { (octets : List ℕ) (report other : Report) → SaysReport octets report → SaysReport octets other
        → (report.global ≡ other.global) × (report.failed ≡ other.failed) }
{}

/// A report has a tree.
pub fn reports_have_trees()
    ensures { (failure : Failure) (msg octets : List ℕ) → IsReportOn failure msg octets → (entities : List Entity) × HasTree octets entities }
{}

/// A report is ASCII unless its path needs UTF-8.
pub fn reports_are_ascii()
    ensures { (failure : Failure) (msg octets : List ℕ) → IsReportOn failure msg octets → is_global failure.path ≡ false → list_all is_ascii octets ≡ true }
{}
