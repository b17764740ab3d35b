//! What the crates above need beside the public calls.
pub use crate::columns::{Table, table_rows, wrap_columns_by};
pub use crate::indentation::{dedent_into, indent_into};
pub use crate::refilling::{refill_by, unfill_into};
pub use crate::rows::{RowCell, RowCells, RowFrame, line_at, push_rows};
