//! What the functions of `robots.h` do, for `robots_c`, which exports them. So whoever builds that
//! static library proves its exports alone.
#![tactic(auto)]

pub mod batch;
pub mod error;
mod file;
pub mod handle;
pub mod kept;
pub mod matrix;
pub mod reading;
pub mod response;
pub mod site;
pub mod texts;
pub mod urls;
