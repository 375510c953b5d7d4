//! Tables of cases.
use mail_wire::Memory;
use std::alloc::Global;
use std::test::Fail;

/// A row of a table.
pub trait Case {
    /// Whether it is so.
    fn holds(&self, alloc: Global) -> Result<bool, Memory>;
}

// The number of the first row that isn't so, or for which memory was wanting.
fn first_wrong<C: Case>(alloc: Global, rows: &[C]) -> Option<usize> {
    for (at, row) in rows.iter().enumerate() {
        match row.holds(alloc) {
            Ok(true) => {}
            _ => return Some(at),
        }
    }
    None
}

/// Goes over rows by what they show. Fails at the first that isn't so, and tells its number and what it should show.
pub fn all_hold<C: Case>(alloc: Global, rows: &[(&str, &[C])]) -> Result<(), Fail> {
    for (shows, rows) in rows {
        if let Some(at) = first_wrong(alloc, *rows) {
            return Err(Fail::new(format_args!("row {at}: {shows}")));
        }
    }
    Ok(())
}
