//! What holds of the line of each refusal.

ghost use Rattle.pm_values.specs.declared.refusal.Refusal.{Refusal};
ghost use Rattle.pm_report.specs.Escaping.{IsOneLine};
ghost use Rattle.pm_report.specs.Report.{report_text};

/// Whatever stands in a refusal, it is printed as one line.
pub fn one_line_law()
    ensures { (refusal : Refusal) → IsOneLine (report_text refusal) }
{}
