// The static library: the calls that a program in C or Rust makes, each the crate thaolisem's under its own name, with its clauses.
#![tactic(auto)]

mod body;
mod header;
mod integer;
mod optional;
mod segment;
mod tag;
mod text;
mod value;
mod version;
