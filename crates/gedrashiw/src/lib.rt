// The library for C programs: each export calls the function of the same name of the crate below and states its clauses again, word for
// word. This crate owns nothing but the names that a program links to. Uses the crates that have entry points, and those whose definitions
// their clauses cite. Once more, since the toolchain has it so: a crate is a library or a static library, a library exports nothing to C, and
// `pub use` of a function makes no export (docs/PORT.md).
#![tactic(auto)]

mod bytes;
mod consensus;
mod metrics;
mod number_calls;
mod padded;
mod reads;
mod reason;
mod record;
mod simplex;
mod strand;
mod tags;
mod thresholds;
