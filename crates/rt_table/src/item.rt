// What stands in a procedure's list before its instances are filled in.
use rt_rows::Row;

/// A row, or the place of the lines of an instance: those of the scheme of a callee, for a call of a site, by its number
/// among the site's calls.
#[derive(Drop)]
pub enum Item {
    Told(Row),
    Instance { site: u32, call: u32 },
}
