//! Lists whose items are taken from the front.

ghost use Rattle.std.specs.Prelude.{◌≡◌, ◌∷◌, [], MatchOption, IfOk};

use sqlite_items::Items;
use std::alloc::{AllocError, Global};
use std::marker::Model;

/// A list whose items are taken one by one from the front, with all that they own.
#[derive(Drop)]
pub(crate) struct Queue<T> {
    /// The last item first, since a list gives its items from the end.
    turned: Items<T>,
}

impl<T> Model for Queue<T> {
    ghost use Rattle.std.specs.Prelude.{List, reverse};
    ghost use Rattle.std.specs.Coded.{coded_list};

    ghost Value = { List T };

    ghost coded = { coded_list T.code };

    ghost view = { λ q. reverse q.turned };
}

impl<T: Drop> Queue<T> {
    /// The items of the list. An error is want of memory.
    pub(crate) fn new(alloc: Global, items: Items<T>) -> Result<Queue<T>, AllocError>
        ensures { IfOk result (λ queue. queue ≡ items) }
    {
        let mut items = items;
        let mut turned = Items::new(alloc);
        while let Some(item) = items.pop() {
            turned.push(item)?;
        }
        Ok(Queue { turned })
    }

    /// Takes the first item, if there is one.
    #[tactic(auto, using(crate::proofs::QueueLaws::queue_laws))]
    pub(crate) fn pop(&mut self) -> Option<T>
        ensures { MatchOption result (self.old ≡ []) (λ item. self.old ≡ item ∷ self.new) }
    {
        self.turned.pop()
    }
}
