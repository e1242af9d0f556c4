//! S-expressions: reading a text, taking what was read apart, and printing a list.
#![tactic(auto)]

mod fault;
mod parts;
mod printing;
mod reading;
mod scanning;
mod sexp;

pub use fault::{SexpFault, SexpKind};
pub use parts::{constant_in, list_in, word_in};
pub use printing::{print, print_line, text_is_read_again};
pub use reading::read_all;
pub use sexp::{Item, Sexp, SexpList};

#[cfg(test)]
mod tests;
