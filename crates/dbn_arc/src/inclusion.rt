ghost use Rattle.std.specs.Prelude.{◌≡◌, nat_le};
ghost use Rattle.std.specs.Cmp.Lexicographic.{slice_cmp};
ghost use Rattle.std.specs.List.{list_all};
ghost use Rattle.dbn_marking.specs.Counts.{count_at};
ghost use Rattle.dbn_net.specs.Wants.{contained};

use dbn_marking::Marking;
use dbn_net::{Want, Wants};
use dbn_value::Cell;

/// Whether the marking has what is wanted: of each place and row as many tokens. A place that there isn't has none. This
/// takes no memory.
pub fn included<C: Cell>(wants: &Wants<C>, marking: &Marking<C>) -> bool
    ensures { result ≡ contained C.cmp wants.now marking.now }
{
    all_included(wants.as_slice(), marking)
}

fn all_included<C: Cell>(wants: &[Want<C>], marking: &Marking<C>) -> bool
    ensures { result ≡ contained C.cmp wants.now marking.now }
{
    for want in wants {
        if !is_included(want, marking) {
            return false;
        }
    }
    true
}

#[tactic(auto, using(crate::proofs::CountLaws::no_tokens))]
fn is_included<C: Cell>(want: &Want<C>, marking: &Marking<C>) -> bool
    ensures { result ≡ nat_le want.now.many (count_at (slice_cmp C.cmp) marking.now want.now.place want.now.row) }
{
    if want.place < marking.places() {
        want.many <= u128::from(marking.count(want.place, &want.row))
    } else {
        want.many == 0
    }
}
