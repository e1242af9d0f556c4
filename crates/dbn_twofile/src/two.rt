//! The keeper over two files.

ghost use Rattle.std.specs.Prelude.{◌≡◌, ◌^◌, ◌≤◌, IsTrue};
ghost use Rattle.dbn_keeper.specs.TwoFiles.{IsTwo};
ghost use Rattle.dbn_twofile.specs.Resting.{two_cursor, OneRests};

use dbn_disk::Disk;
use dbn_io::Trouble;
use dbn_journal::{Gate, append, gate_at};
use dbn_keeper::{Base, Form, Keeper, Step, is_within, make_new, text_fits};
use std::alloc::Global;
use std::mem::swap;

/// Two files, of which one is chosen: bodies are added to it, and a checkpoint makes the other one anew, which is chosen
/// from then on. The last generation is 2^62. While it is live nothing is pending on either disk; after an error nothing
/// is pending on one of them, on the other one after an append and on the chosen one after a checkpoint.
#[derive(Drop)]
pub struct TwoFile<D: Disk + Drop> {
    pub(crate) chosen: D,
    pub(crate) other: D,
    // the second disk is chosen
    pub(crate) swapped: bool,
    pub(crate) form: Form,
    pub(crate) base: Base,
    pub(crate) generation: u64,
    pub(crate) file_bytes: u64,
    pub(crate) records: u64,
    pub(crate) place: u64,
    pub(crate) at_end: bool,
    pub(crate) live: bool,
    // a file is being made on the other disk
    pub(crate) making: bool,
    ghost first_generation: { 1 ≤ generation },
    ghost last_generation: { generation ≤ 2 ^ 62 },
    ghost file_bound: { file_bytes ≤ 2 ^ 61 },
    ghost two: { IsTrue live → IsTwo (two_cursor form base generation file_bytes live records place at_end swapped) (D.state chosen) (D.state other) },
    ghost rests: { OneRests making (D.state chosen) (D.state other) },
}

impl<D: Disk + Drop> Keeper for TwoFile<D> {
    ghost use Rattle.dbn_keeper.specs.TwoFiles.{two_state};
    ghost use Rattle.dbn_keeper.specs.TwoLaws.{two_sound, two_settled};
    ghost use Rattle.dbn_twofile.specs.Resting.{two_cursor};

    ghost state = { λ k. two_state (two_cursor k.form k.base k.generation k.file_bytes k.live k.records k.place k.at_end k.swapped) (D.state k.chosen) (D.state k.other) };

    ghost sound = { λ k honest. two_sound (two_cursor k.form k.base k.generation k.file_bytes k.live k.records k.place k.at_end k.swapped) (D.state k.chosen) (D.state k.other) honest (D.sound k.chosen) (D.sound k.other) };

    ghost settled = { λ k live. two_settled (two_cursor k.form k.base k.generation k.file_bytes k.live k.records k.place k.at_end k.swapped) (D.state k.chosen) (D.state k.other) (k.two live) (D.sound k.chosen) (D.sound k.other) };

    fn is_live(&self) -> bool {
        self.live
    }

    fn form(&self) -> Form {
        self.form
    }

    fn base(&self) -> &Base {
        &self.base
    }

    fn generation(&self) -> u64 {
        self.generation
    }

    #[tactic(auto, using(crate::proofs::Rests::rests_looked))]
    fn next_body(&mut self, alloc: Global) -> Result<Step, Trouble> {
        self.live = false;
        match gate_at(alloc, &mut self.chosen, self.place)? {
            Gate::Shut => {
                self.at_end = true;
                self.live = true;
                Ok(Step::End)
            }
            Gate::Held { body, after } => {
                let place = self.place;
                self.records += 1;
                self.place = after;
                self.at_end = false;
                self.live = true;
                Ok(Step::Body { body, place })
            }
            Gate::Torn => {
                self.at_end = false;
                self.live = true;
                Ok(Step::Damaged(self.place))
            }
        }
    }

    fn at_end(&self) -> bool {
        self.at_end
    }

    fn records(&self) -> u64 {
        self.records
    }

    fn room(&self, len: usize) -> bool {
        is_within(self.place, len, self.file_bytes)
    }

    #[tactic(auto, using(crate::proofs::Rests::other_rests))]
    fn append(&mut self, alloc: Global, body: &[u8]) -> Result<(), Trouble> {
        self.live = false;
        self.making = false;
        self.place = append(alloc, &mut self.chosen, self.place, body)?;
        self.records += 1;
        self.live = true;
        Ok(())
    }

    fn fits(&self, text_len: usize) -> bool {
        text_fits(text_len, self.file_bytes) && self.generation < 1 << 62
    }

    fn checkpoint(&mut self, alloc: Global, base: Base) -> Result<u64, Trouble> {
        self.live = false;
        self.making = true;
        let generation = self.generation + 1;
        make_new(alloc, &mut self.other, generation, &base)?;
        swap(&mut self.chosen, &mut self.other);
        self.swapped = !self.swapped;
        self.making = false;
        self.form = Form::Two;
        self.generation = generation;
        self.records = 0;
        self.place = 33 + base.text.as_slice().len() as u64;
        self.base = base;
        self.live = true;
        Ok(generation)
    }
}
