// The library's public calls and the types that they take and give, all in one place; nothing else is public.

#![tactic(auto)]

pub use answers::{Answer, Decided, Goals, Job, Made, Place, Refusal, Report, Sizes, State};
pub use decision::decide;
pub use floor::one_goal;
pub use floor_text::{read_floor, write_floor};
pub use line::with_depth;
pub use opening::{fill_opening, open};
pub use run::{run, trial};
pub use table_file::{check_trailer, find_records, read_table, renew_file, write_table};
