//! Worked texts of reports, of `check` and of a demo, as tests on the calls of `report_text`; what a flight log keeps
//! of a report's parts; and worked traces passed to the auditor.
#![tactic(auto)]

#[cfg(test)]
mod audits;
#[cfg(test)]
mod cycles;
#[cfg(test)]
mod parts;
#[cfg(test)]
mod tests;
