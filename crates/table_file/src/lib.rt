// The table file: records of the figures that differ from the opening figure, and a trailer that points back to them.

#![tactic(auto)]

mod reader;
mod renewal;
mod site;
mod trailer;
mod writer;

pub use reader::read_table;
pub use renewal::renew_file;
pub use site::Site;
pub use trailer::{check_trailer, find_records};
pub use writer::write_table;
