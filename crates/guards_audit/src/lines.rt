//! The lines of a report or a trace: each form has one spelling, which is read back, and a text of lines is read line
//! by line. The definitions stand in `specs/`; each law is the contract of a function without a body.
ghost use Rattle.std.specs.Prelude.{◌≡◌, true, Some, List, map, flat_map};
ghost use Rattle.std.specs.List.{list_all};
ghost use Rattle.guards_model.specs.Texts.{TextValue};
ghost use Rattle.guards_audit.specs.Lines.{ReportLine, line_spelling, is_form, lines_in};
ghost use Rattle.guards_audit.specs.Reading.{line_read};
ghost use Rattle.guards_audit.specs.Reports.{ReportValue, lines_of, text_of_report, report_of};

/// A line that is of its form has one spelling, from which it is read; no other text is read as a line, and no text is
/// two lines.
pub fn lines_are_read()
    ensures back { (line : ReportLine) → is_form line ≡ true → line_read (line_spelling line) ≡ Some line }
    ensures spelled { (text : TextValue) (line : ReportLine) → line_read text ≡ Some line →
        (text ≡ line_spelling line) × (is_form line ≡ true) }
    ensures single { (a b : ReportLine) → is_form a ≡ true → is_form b ≡ true → line_spelling a ≡ line_spelling b →
        a ≡ b }
{}

/// A text that is made of lines falls into just these, and each is read.
pub fn texts_are_read()
    ensures { (lines : List ReportLine) → list_all is_form lines ≡ true →
        map line_read (lines_in (flat_map line_spelling lines)) ≡ map (λ line. Some line) lines }
{}

/// A report whose lines are of their forms is read from its text, and no other text is read as a report.
pub fn reports_are_read()
    ensures back { (report : ReportValue) → list_all is_form (lines_of report) ≡ true →
        report_of (text_of_report report) ≡ Some report }
    ensures spelled { (text : TextValue) (report : ReportValue) → report_of text ≡ Some report →
        (text ≡ text_of_report report) × (list_all is_form (lines_of report) ≡ true) }
{}
