//! Laws: what follows from the definitions. Each is the contract of a function that does nothing.

mod grammar;
mod matching;
mod order;
mod parts_grammar;
mod parts_order;
