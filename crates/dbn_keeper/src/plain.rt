//! A keeper over one file.

ghost use Rattle.std.specs.Prelude.{◌≡◌, ◌+◌, ◌^◌, ◌≤◌, List, ℕ, Some, true, false, length, IsTrue};
ghost use Rattle.dbn_keeper.specs.TwoFiles.{two_state, IsTwo};
ghost use Rattle.dbn_disk.specs.Disk.{Only};
ghost use Rattle.dbn_keeper.specs.Reading.{HoldsBase};
ghost use Rattle.dbn_keeper.specs.Plain.{plain_cursor, no_disk};

use crate::base::{Base, Step};
use crate::find::Found;
use crate::keeper::Keeper;
use crate::opening::Form;
use crate::sizes::{is_within, text_fits};
use dbn_disk::Disk;
use dbn_io::Trouble;
use dbn_journal::{Gate, append, gate_at};
use std::alloc::Global;

/// One file, whose generation is the last one: there is no checkpoint.
#[derive(Drop)]
pub struct PlainKeeper<D: Disk + Drop> {
    pub(crate) disk: D,
    form: Form,
    base: Base,
    generation: u64,
    // no checkpoint goes past this generation
    last: u64,
    file_bytes: u64,
    records: u64,
    place: u64,
    at_end: bool,
    live: bool,
    ghost file_bound: { file_bytes ≤ 2 ^ 61 },
    ghost one: { IsTrue live → IsTwo (plain_cursor form base generation last file_bytes live records place at_end) (D.state disk) no_disk },
}

impl<D: Disk + Drop> Keeper for PlainKeeper<D> {
    ghost use Rattle.dbn_keeper.specs.TwoFiles.{two_state};
    ghost use Rattle.dbn_keeper.specs.TwoLaws.{two_sound, two_settled};
    ghost use Rattle.dbn_keeper.specs.Plain.{plain_cursor, no_disk, no_disk_sound};

    ghost state = { λ k. two_state (plain_cursor k.form k.base k.generation k.last k.file_bytes k.live k.records k.place k.at_end) (D.state k.disk) no_disk };

    ghost sound = { λ k honest. two_sound (plain_cursor k.form k.base k.generation k.last k.file_bytes k.live k.records k.place k.at_end) (D.state k.disk) no_disk honest (D.sound k.disk) no_disk_sound };

    ghost settled = { λ k live. two_settled (plain_cursor k.form k.base k.generation k.last k.file_bytes k.live k.records k.place k.at_end) (D.state k.disk) no_disk (k.one live) (D.sound k.disk) no_disk_sound };

    fn is_live(&self) -> bool {
        self.live
    }

    fn form(&self) -> Form {
        self.form
    }

    fn base(&self) -> &Base {
        &self.base
    }

    fn generation(&self) -> u64 {
        self.generation
    }

    fn next_body(&mut self, alloc: Global) -> Result<Step, Trouble> {
        self.live = false;
        match gate_at(alloc, &mut self.disk, self.place)? {
            Gate::Shut => {
                self.at_end = true;
                self.live = true;
                Ok(Step::End)
            }
            Gate::Held { body, after } => {
                let place = self.place;
                self.records += 1;
                self.place = after;
                self.at_end = false;
                self.live = true;
                Ok(Step::Body { body, place })
            }
            Gate::Torn => {
                self.at_end = false;
                self.live = true;
                Ok(Step::Damaged(self.place))
            }
        }
    }

    fn at_end(&self) -> bool {
        self.at_end
    }

    fn records(&self) -> u64 {
        self.records
    }

    fn room(&self, len: usize) -> bool {
        is_within(self.place, len, self.file_bytes)
    }

    fn append(&mut self, alloc: Global, body: &[u8]) -> Result<(), Trouble> {
        self.live = false;
        self.place = append(alloc, &mut self.disk, self.place, body)?;
        self.records += 1;
        self.live = true;
        Ok(())
    }

    fn fits(&self, text_len: usize) -> bool {
        text_fits(text_len, self.file_bytes) && self.generation < self.last
    }

    fn checkpoint(&mut self, _alloc: Global, _base: Base) -> Result<u64, Trouble> {
        self.live = false;
        Err(Trouble::Memory)
    }
}

// The keeper of what was found on this disk.
pub(crate) fn over<D: Disk + Drop>(disk: D, found: Found, file_bytes: u64) -> PlainKeeper<D>
    requires holds { (x : List ℕ) → (D.state disk).content ≡ Some x → HoldsBase found.form found.base found.generation x }
    requires settled { (x : List ℕ) → (D.state disk).content ≡ Some x → IsTrue (D.state disk).honest → Only x (D.state disk).image }
    requires bound { file_bytes ≤ 2 ^ 61 }
    ensures disk { result.disk ≡ disk }
    ensures fresh { (result.live ≡ true) × (result.records ≡ 0) × (result.place ≡ 33 + length result.base.text) × (result.at_end ≡ false) × (result.file_bytes ≡ file_bytes) }
    ensures last { (result.last ≡ 1) × (1 ≤ result.generation) }
{
    let place = 33 + found.base.text.as_slice().len() as u64;
    PlainKeeper {
        disk,
        form: found.form,
        base: found.base,
        generation: found.generation,
        last: 1,
        file_bytes,
        records: 0,
        place,
        at_end: false,
        live: true,
    }
}
