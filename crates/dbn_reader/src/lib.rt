//! Net texts: the net and the start snapshot that a text is read as, or its first fault.
#![tactic(auto)]

mod arity;
mod binding;
mod bound;
mod broken;
mod clauses;
mod counting;
mod declarations;
mod duplicates;
mod fault;
mod formula_types;
mod formulas;
mod ids;
mod judging;
mod limits;
mod misfit;
mod names;
mod numbers;
mod quantified;
mod queue;
mod reading;
mod resolving;
mod terms;
mod typing;
mod words;

pub use fault::NetFault;
pub use reading::read_net;
