//! The scene of a bench, and its text.
#![tactic(auto)]

mod bench;
mod bench_text;
mod laws;

pub use bench::{MAX_BENCH, bench_scene};
pub use bench_text::generate;
pub use laws::a_bench_is_read_from_its_text;
