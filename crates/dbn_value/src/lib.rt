//! The values of a net: types, spellings, orders, rows, and the cells and coders that stand for values.
#![tactic(auto)]

mod cell;
mod coded;
mod coder;
mod copying;
mod lists;
mod member;
mod name;
mod order;
mod reading;
mod row;
mod scope;
mod spelling;
mod term;
mod value;

pub use cell::Cell;
pub use coded::{find_row, get_row, put_row};
pub use coder::{Coder, PlainCoder, coding};
pub use copying::{CopyIn, copy_items};
pub use lists::{
    Bytes, Members, Nums, Rows, RowsOf, Shape, Shapes, Terms, TypedNames, TypedVars, Vars,
};
pub use member::Member;
pub use name::Name;
pub use order::compare;
pub use reading::read_value;
pub use row::{Row, has_shape, join_rows, pick};
pub use scope::{row_of, value_of};
pub use spelling::{in_range, spell};
pub use term::{Cmp, Term, Var};
pub use value::{ColType, ID_END, IdNo, MAX_TEXT_BYTES, Txt, Value, ValueFault, same_type};

#[cfg(test)]
mod tests;
