//! A chart: a table of waits read from bytes, where they lie, and the bytes of any table written.
//!
//! [`Chart::new`] reads bytes, [`Chart::check`] tells why bytes are no chart, and [`write_chart`] writes them.
#![tactic(auto)]

mod bytes;
mod chart;
mod fault;
#[cfg(test)]
mod tests;
mod writer;

pub use bytes::{CHART_MAX, ROW_BYTES};
pub use chart::Chart;
pub use fault::ChartFault;
pub use writer::write_chart;
