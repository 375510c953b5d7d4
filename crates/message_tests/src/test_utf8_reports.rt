//! Worked reports, by the public calls of utf8_reports.
mod reading;
mod spelling;
mod writing;
