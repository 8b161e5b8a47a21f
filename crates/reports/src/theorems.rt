// What is proved of the report's definition. Each theorem is carried by a function.
ghost use Rattle.reports.specs.Theorems.{ReportsRunThrough, ReportsMean, SampleReport};

// A report that is not refused runs to the end, and none of its calls is refused.
pub fn reports_run_through()
    ensures theorem { ReportsRunThrough }
{}

// Its six values are what they mean.
pub fn reports_mean()
    ensures theorem { ReportsMean }
{}

// The sample job's report is the six lines of the specification.
pub fn sample_report()
    ensures theorem { SampleReport }
{}
