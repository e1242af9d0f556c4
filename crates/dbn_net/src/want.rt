ghost use Rattle.std.specs.Prelude.{◌≡◌};
ghost use Rattle.dbn_net.specs.Wants.{AreWants};

use dbn_value::{Cell, Row};
use sqlite_items::Items;
use std::marker::Model;

/// So many tokens of a row in a place.
#[derive(Debug, Drop)]
pub struct Want<C> {
    /// The number of the place.
    pub place: usize,
    pub row: Row<C>,
    /// Numbers of tokens are summed, so this may pass the limit of a count.
    pub many: u128,
}

/// Wants by place and row, each place and row once.
#[derive(Drop)]
pub struct Wants<C: Cell> {
    wants: Items<Want<C>>,
}

impl<C: Cell> Model for Wants<C> {
    ghost use Rattle.std.specs.Prelude.{List};
    ghost use Rattle.std.specs.Coded.{coded_list};
    ghost use Rattle.dbn_net.specs.declared.want.Want.{Want as OneWant};
    ghost use Rattle.dbn_net.specs.Codes.{coded_want};
    ghost use Rattle.dbn_net.specs.Wants.{AreWants};

    ghost Value = { List (OneWant C) };

    ghost coded = { coded_list (coded_want C.code) };

    ghost view = { λ w. w.wants };

    ghost invariant = { λ w. AreWants C.cmp w.wants };
}

impl<C: Cell> Wants<C> {
    /// The wants of the list, which stand by place and row. This takes no memory.
    pub fn from_vec(wants: Vec<Want<C>>) -> Wants<C>
        requires { AreWants C.cmp wants.items }
        ensures { result ≡ wants.items }
    {
        Wants {
            wants: Items::from_vec(wants),
        }
    }

    /// The wants as a slice. They stand by place and row.
    pub fn as_slice(&self) -> &[Want<C>]
        ensures value { result.now ≡ self.now }
        ensures sorted { AreWants C.cmp result.now }
    {
        self.wants.as_slice()
    }
}
