//! Output that is safe whatever is written to it: text without control characters that steer a terminal,
//! reports of such lines, and HTML; with reading a complete input and writing a complete report, and helpers
//! on byte strings.
#![tactic(auto)]

pub mod bytes;
mod color;
pub mod delay;
pub mod html;
pub mod level;
pub mod lines;
pub mod report;
pub mod sanitize;
pub mod streams;
pub mod write;
