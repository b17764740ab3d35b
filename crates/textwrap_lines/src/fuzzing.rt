//! The inner calls of [`wrap`](crate::wrap) and [`fill`](crate::fill), public so that a test can
//! compare the shortcuts with the slow paths: [`wrap_single_line_slow_path`] divides a short
//! paragraph too, and [`fill_slow_path`] goes by lists of words, of pieces and of all lines. The
//! examples of [`wrap_single_line`] and [`wrap_single_line_slow_path`] show where these two differ.

pub use crate::filling::fill_slow_path;
pub use crate::wrapping::{wrap_single_line, wrap_single_line_slow_path};
