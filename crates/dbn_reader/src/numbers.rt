//! Numbers of names, and columns by number.

ghost use Rattle.std.specs.Prelude.{◌≡◌, ◌<◌, length};
ghost use Rattle.std.specs.Option.{ForSome};
ghost use Rattle.dbn_net.specs.Tables.{columns, places};
ghost use Rattle.dbn_net.specs.Naming.{control_number, view_number, columns_at};

use dbn_net::{Net, Place};
use dbn_value::{ColType, Shapes};

/// The number of the control place with this name.
#[tactic(auto, using(crate::proofs::NumberLaws::number_laws))]
pub(crate) fn control_number(net: &Net, name: &[u8]) -> Option<usize>
    ensures value { result ≡ control_number net.now name.now }
    ensures within { ForSome result (λ n. n < length (places net.now)) }
{
    match net.place(name) {
        None => None,
        Some(n) => match net.place_at(n) {
            Place::Control { .. } => Some(n),
            Place::View { .. } => None,
        },
    }
}

/// The number of the view with this name.
#[tactic(auto, using(crate::proofs::NumberLaws::number_laws))]
pub(crate) fn view_number(net: &Net, name: &[u8]) -> Option<usize>
    ensures { result ≡ view_number net.now name.now }
{
    match net.place(name) {
        None => None,
        Some(n) => match net.place_at(n) {
            Place::Control { .. } => None,
            Place::View { .. } => Some(n),
        },
    }
}

/// The columns with this number; none where there are no such columns.
pub(crate) fn columns(shapes: &Shapes, n: usize) -> &[ColType]
    ensures { result.now ≡ columns shapes.now n }
{
    match shapes.get(n) {
        Some(shape) => shape.as_slice(),
        None => &[],
    }
}

/// The columns with this number, if there is one; else none.
pub(crate) fn columns_at(shapes: &Shapes, n: Option<usize>) -> &[ColType]
    ensures { result.now ≡ columns_at shapes.now n }
{
    match n {
        Some(n) => columns(shapes, n),
        None => &[],
    }
}
