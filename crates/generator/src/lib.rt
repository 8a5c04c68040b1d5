// Sums of sheets, and the shortest generators of stretches of such sums.
#![tactic(auto)]

mod berlekamp_massey;
mod generators;
mod polynomials;
mod sums;
#[cfg(test)]
mod tests;

pub use generators::{MIN_MEMORY, shortest_generator};
pub use polynomials::{MAX_STRETCH, dot_product};
pub use sums::{MAX_PLACES, sum_at};
