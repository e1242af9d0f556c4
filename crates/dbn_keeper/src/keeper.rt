//! What keeps the bodies of records upon a base.

ghost use Rattle.std.specs.Prelude.{◌≡◌, ◌⊎◌, ◌+◌, ◌^◌, ◌<◌, ◌≤◌, List, ℕ, Some, true, false, length, IfOk, OnOk, OnErr, IsTrue};
ghost use Rattle.dbn_keeper.specs.declared.opening.Form.TheVariants.{Two};
ghost use Rattle.dbn_keeper.specs.Files.{Store, Folder, new_store, with_body};
ghost use Rattle.dbn_keeper.specs.Files.Folder.{Holds};
ghost use Rattle.dbn_keeper.specs.Keeping.{KeeperState, HasCauseIn, Keeps, SameHeader, IsSound, IsSettled, next_step, Steps, Follows, SameFiles, has_room, has_fit, BringsOnly};

use crate::base::{Base, Step};
use crate::opening::Form;
use dbn_io::Trouble;
use std::alloc::Global;

/// What keeps the bodies of records upon a base. The bodies that are there already are handed out one after the other;
/// behind the last one others are appended. A checkpoint puts a new base in the place of the old one and of all bodies.
///
/// After an error the keeper isn't live, and no call but `is_live` may be made. `Failed` comes only where a count of
/// faults rose.
pub trait Keeper {
    /// All that it means at this moment.
    ghost state: { Self → KeeperState };

    /// Whether no call ended with an error.
    fn is_live(&self) -> bool
        ensures { result ≡ (state self.now).live };

    /// The form of the bodies. Only a checkpoint changes it, to form two.
    fn form(&self) -> Form
        requires { IsTrue (state self.now).live }
        ensures { result ≡ (state self.now).form };

    /// What the bodies stand upon.
    fn base(&self) -> &Base
        requires { IsTrue (state self.now).live }
        ensures { result.now ≡ (state self.now).base };

    /// The generation. Each checkpoint makes it one greater.
    fn generation(&self) -> u64
        requires { IsTrue (state self.now).live }
        ensures { result ≡ (state self.now).generation };

    /// The next body with the place of its gate; the end exactly where a shut gate ends the bodies; or the damage, exactly
    /// where the gate at this place is torn.
    ///
    /// What is held and all images stay, with every answer.
    fn next_body(&mut self, alloc: Global) -> Result<Step, Trouble>
        requires { IsTrue (state self.old).live }
        ensures step { (store : Store) → (state self.old).held ≡ Some (Holds store) → IfOk result (λ step. step ≡ next_step store (state self.old).records (state self.old).place) }
        ensures follows { IfOk result (λ step. Follows (state self.old) (state self.new) step) }
        ensures files { SameFiles (state self.old) (state self.new) }
        ensures header { SameHeader (state self.old) (state self.new) }
        ensures live { OnOk result ((state self.new).live ≡ true) }
        ensures dead { OnErr result ((state self.new).live ≡ false) }
        ensures keeps { Keeps (state self.old) (state self.new) }
        ensures cause { HasCauseIn (state self.old).faults (state self.new).faults result };

    /// Whether there are no more bodies: from the step `End` on.
    fn at_end(&self) -> bool
        requires { IsTrue (state self.now).live }
        ensures { result ≡ (state self.now).at_end };

    /// How many bodies were handed out or appended upon the base.
    fn records(&self) -> u64
        requires { IsTrue (state self.now).live }
        ensures { result ≡ (state self.now).records };

    /// Whether a body of `len` bytes, with the gates at both its ends, ends within the cap. Without a cap it does.
    fn room(&self, len: usize) -> bool
        requires { IsTrue (state self.now).live }
        ensures { result ≡ has_room (state self.now) len };

    /// Adds a body behind all others. During it each image stands for the bodies without the new one or with it; from
    /// `Ok` on each image has it.
    fn append(&mut self, alloc: Global, body: &[u8]) -> Result<(), Trouble>
        requires live { IsTrue (state self.old).live }
        requires end { IsTrue (state self.old).at_end }
        requires room { IsTrue (has_room (state self.old) (length body.now)) }
        requires size { length body.now < 2 ^ 32 }
        ensures value { OnOk result ((store : Store) → (state self.old).held ≡ Some (Holds store) → (state self.new).held ≡ Some (Holds (with_body body.now store))) }
        ensures place { OnOk result (Steps (state self.old) (state self.new) (length body.now)) }
        ensures any_moment { (store : Store) → (state self.old).held ≡ Some (Holds store) → IsTrue (state self.old).honest → BringsOnly (state self.old) (state self.new) (λ f. (f ≡ Holds store) ⊎ (f ≡ Holds (with_body body.now store))) }
        ensures steady { OnOk result ((store : Store) → (state self.old).held ≡ Some (Holds store) → IsTrue (state self.old).honest → (t : List ℕ) → (state self.old).steady t → (state self.new).steady t) }
        ensures header { SameHeader (state self.old) (state self.new) }
        ensures live { OnOk result (((state self.new).live ≡ true) × ((state self.new).at_end ≡ true)) }
        ensures dead { OnErr result ((state self.new).live ≡ false) }
        ensures keeps { Keeps (state self.old) (state self.new) }
        ensures cause { HasCauseIn (state self.old).faults (state self.new).faults result };

    /// Whether a new file with a text of `text_len` bytes ends within the cap, where there is one, and the generation is
    /// below the last one.
    fn fits(&self, text_len: usize) -> bool
        requires { IsTrue (state self.now).live }
        ensures { result ≡ has_fit (state self.now) text_len };

    /// Puts `base` in the place of the old base and of all bodies, and answers the new generation, which is one greater.
    /// The new form is two. During it each image stands for what one of before stood for, or for the new base without a
    /// body; from `Ok` on each image stands for that.
    fn checkpoint(&mut self, alloc: Global, base: Base) -> Result<u64, Trouble>
        requires live { IsTrue (state self.old).live }
        requires end { IsTrue (state self.old).at_end }
        requires fits { IsTrue (has_fit (state self.old) (length base.text)) }
        requires text { length base.text ≤ 2 ^ 31 }
        requires numbers { (base.fired ≤ 2 ^ 62) × (base.next ≤ 2 ^ 62) }
        ensures generation { IfOk result (λ generation. generation ≡ (state self.old).generation + 1) }
        ensures value { OnOk result ((store : Store) → (state self.old).held ≡ Some (Holds store) → (state self.new).held ≡ Some (Holds (new_store ((state self.old).generation + 1) base))) }
        ensures header { OnOk result (((state self.new).form ≡ Two) × ((state self.new).base ≡ base) × ((state self.new).generation ≡ (state self.old).generation + 1)) }
        ensures place { OnOk result (((state self.new).records ≡ 0) × ((state self.new).place ≡ 33 + length base.text)) }
        ensures any_moment { (store : Store) → (state self.old).held ≡ Some (Holds store) → IsTrue (state self.old).honest → BringsOnly (state self.old) (state self.new) (λ f. f ≡ Holds (new_store ((state self.old).generation + 1) base)) }
        ensures live { OnOk result (((state self.new).live ≡ true) × ((state self.new).at_end ≡ true)) }
        ensures dead { OnErr result ((state self.new).live ≡ false) }
        ensures keeps { Keeps (state self.old) (state self.new) }
        ensures cause { HasCauseIn (state self.old).faults (state self.new).faults result };

    /// The law of images.
    ghost sound: { (k : Self) → IsTrue (state k).honest → IsSound (state k) };

    /// The law of a live keeper.
    ghost settled: { (k : Self) → IsTrue (state k).live → IsSettled (state k) };
}
