//! Laws on books. The functions do nothing: their contracts are the laws.
ghost use Rattle.exposure_book.specs.Books.{BookValue};
ghost use Rattle.exposure_book.specs.Reports.{outcome_of_report, outcome_of_reject, RaisesNothing};
ghost use Rattle.fix_orders.specs.declared.message.Report.{Report};
ghost use Rattle.fix_orders.specs.declared.message.CancelReject.{CancelReject};

/// No report and no cancel reject raises the value of a tree, whatever the book and the report.
pub fn no_report_raises_a_value()
    ensures report { (book : BookValue) (report : Report)
        → RaisesNothing book (outcome_of_report book report).orders }
    ensures reject { (book : BookValue) (reject : CancelReject)
        → RaisesNothing book (outcome_of_reject book reject).orders }
{}
