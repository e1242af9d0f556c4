//! Looking at two files.

ghost use Rattle.std.specs.Prelude.{◌≡◌, ◌^◌, ◌<◌, ◌≤◌, List, ℕ, Some, not, length, IfOk, OnOk, IsErrOf, IsTrue};
ghost use Rattle.dbn_disk.specs.Disk.{Only};
ghost use Rattle.dbn_keeper.specs.Files.{folder};
ghost use Rattle.dbn_keeper.specs.Files.Folder.{NotMade, NotAStore};
ghost use Rattle.dbn_keeper.specs.Reading.{IsRanged};
ghost use Rattle.dbn_keeper.specs.declared.find.FindFault.{FindFault};
ghost use Rattle.dbn_twofile.specs.Finding.{choice_of, IsRangedChoice, IsSide, OnlySynced, HasCauseOfTwo};

use dbn_disk::Disk;
use dbn_keeper::{Base, FindFault, Form, Opening, base_at, settle};
use std::alloc::Global;

// Which of two files counts, with its form and its generation.
#[derive(Drop)]
pub(crate) enum Choice {
    NoneOpen,
    NoStore,
    First(Form, u64),
    Second(Form, u64),
}

// Which of two files counts, by what they say.
fn choose(first: Opening, second: Opening) -> Choice
    ensures choice { result ≡ choice_of first second }
    ensures range { IsRanged first → IsRanged second → IsRangedChoice result }
{
    match (first, second) {
        (Opening::NotOpen, Opening::NotOpen) => Choice::NoneOpen,
        (Opening::Foreign, _) => Choice::NoStore,
        (_, Opening::Foreign) => Choice::NoStore,
        (Opening::NotOpen, Opening::Marked(form, generation)) => Choice::Second(form, generation),
        (Opening::Marked(form, generation), Opening::NotOpen) => Choice::First(form, generation),
        (Opening::Marked(form, generation), Opening::Marked(other_form, other)) => {
            if other <= generation {
                Choice::First(form, generation)
            } else {
                Choice::Second(other_form, other)
            }
        }
    }
}

// What was found in two files.
#[derive(Drop)]
pub(crate) struct Found {
    // the second file is chosen
    pub swapped: bool,
    pub form: Form,
    pub base: Base,
    pub generation: u64,
    pub ghost first_generation: { 1 ≤ generation },
    pub ghost last_generation: { generation ≤ 2 ^ 62 },
    pub ghost short: { length base.text < 2 ^ 32 },
    pub ghost numbers: { (base.fired ≤ 2 ^ 62) × (base.next ≤ 2 ^ 62) },
}

// Syncs two files, and looks for a store in them.
pub(crate) fn look<D: Disk>(alloc: Global, a: &mut D, b: &mut D) -> Result<Found, FindFault>
    ensures found_a { (x : List ℕ) → (D.state a.old).content ≡ Some x → IfOk result (λ f. IsSide (not f.swapped) f.swapped f.form f.base f.generation x) }
    ensures found_b { (y : List ℕ) → (D.state b.old).content ≡ Some y → IfOk result (λ f. IsSide f.swapped f.swapped f.form f.base f.generation y) }
    ensures not_made { IsErrOf result FindFault.NotMade → (x y : List ℕ) → (D.state a.old).content ≡ Some x → (D.state b.old).content ≡ Some y → folder x y ≡ NotMade }
    ensures not_a_store { IsErrOf result FindFault.NotAStore → (x y : List ℕ) → (D.state a.old).content ≡ Some x → (D.state b.old).content ≡ Some y → folder x y ≡ NotAStore }
    ensures settled_a { OnOk result ((x : List ℕ) → (D.state a.old).content ≡ Some x → IsTrue (D.state a.old).honest → Only x (D.state a.new).image) }
    ensures settled_b { OnOk result ((y : List ℕ) → (D.state b.old).content ≡ Some y → IsTrue (D.state b.old).honest → Only y (D.state b.new).image) }
    ensures disk_a { OnlySynced (D.state a.old) (D.state a.new) }
    ensures disk_b { OnlySynced (D.state b.old) (D.state b.new) }
    ensures cause { HasCauseOfTwo FindFault.Failed (D.state a.old).faults (D.state a.new).faults (D.state b.old).faults (D.state b.new).faults result }
{
    let first = settle(a)?;
    let second = settle(b)?;
    match choose(first, second) {
        Choice::NoneOpen => Err(FindFault::NotMade),
        Choice::NoStore => Err(FindFault::NotAStore),
        Choice::First(form, generation) => match base_at(alloc, a)? {
            Some(base) => Ok(Found {
                swapped: false,
                form,
                base,
                generation,
            }),
            None => Err(FindFault::NotAStore),
        },
        Choice::Second(form, generation) => match base_at(alloc, b)? {
            Some(base) => Ok(Found {
                swapped: true,
                form,
                base,
                generation,
            }),
            None => Err(FindFault::NotAStore),
        },
    }
}
