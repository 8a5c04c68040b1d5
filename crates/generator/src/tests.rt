mod generators;
mod products;
mod sums;
