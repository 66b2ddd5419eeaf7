//! What sessions did, act by act; the journal as text, each session's acts and then the lines of
//! each tree, both ways; and the totals of a run as text.
#![tactic(auto)]

mod acts;
mod csv_rows;
mod id64;
mod journal;
mod journal_law;
mod placed;
mod reading;
mod row_cells;
mod row_reading;
mod rows;
mod sparse;
mod totals;

pub use acts::{Act, End};
pub use id64::Id64;
pub use journal::{Journal, header_row, write_journal, write_session, write_tree};
pub use journal_law::{one_reading_stands, written_is_read};
pub use placed::set_places;
pub use reading::{JournalFault, read_journal, read_sparse_journal};
pub use sparse::{SparseJournal, TreeLines, expand_journal};
pub use totals::{SessionTotal, Totals, TreeKind, TreeTotal, write_totals};
