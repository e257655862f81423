// The lines of reports.
use rt_base::Bytes;
use rt_lines::Line;
use rt_scheme::Place2;

// A line of a report.
#[derive(Drop)]
pub enum Row {
    // A global of this number and name.
    Listed(u32, Bytes),
    // The first line of an entry: its number, its place and its name.
    Heading(u32, Place2, Bytes),
    // A line of an entry.
    Stated(Line),
    // The end of an entry.
    End,
}
