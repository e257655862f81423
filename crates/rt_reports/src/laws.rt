//! The law of the texts of reports: a function that does nothing, for the law that it ensures.
ghost use Rattle.rt_reports.specs.ReportReadings.{OneReport};

/// A text is that of one report alone: two well formed reports with one text are the same.
pub fn one_report()
    ensures { OneReport }
{}
