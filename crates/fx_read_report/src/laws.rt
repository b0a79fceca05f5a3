//! Laws of the printed forms. Each stands on a function that does nothing, so that it is proved with the crate.
ghost use Rattle.fx_report.specs.Readable.{QuotesAreReadable, ReportsAreReadable, ValuesAreReadable};

/// Bytes between quotation marks tell what they are and where they end.
pub fn quotes_are_readable()
    ensures { QuotesAreReadable }
{}

/// Different values have different texts.
pub fn values_are_readable()
    ensures { ValuesAreReadable }
{}

/// Different entries or retries have different reports.
pub fn reports_are_readable()
    ensures { ReportsAreReadable }
{}
