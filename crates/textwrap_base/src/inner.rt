//! What the crates above need beside the public calls, which `textwrap` does not pass on.
pub use crate::optimal_fit::lines_by;
pub use crate::penalties::DEFAULT_PENALTIES;
pub use crate::prefix_sums::{PrefixSums, line_cost};
