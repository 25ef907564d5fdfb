// What a report says of the runs of its program.
ghost use Rattle.plain_reports.specs.Claims.{ReportsClaim};

/// What each report claims of its program is so.
pub fn reports_claim()
    ensures { ReportsClaim }
{}
