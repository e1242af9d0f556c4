//! A disk in memory.

ghost use Rattle.std.specs.Prelude.{◌≡◌, ℕ, List, [], ◌∷◌, ◌++◌, ◌+◌, ◌^◌, ◌≤◌, cond, not, length, take, Some, IfOk, OnOk, IsErrOf, IsTrue, vec_len, vec_capacity};
ghost use Rattle.std.specs.Io.{ReadsAtMost};
ghost use Rattle.std.specs.Option.{option_map};
ghost use Rattle.dbn_io.specs.Causes.{HasCause};
ghost use Rattle.dbn_io.specs.Memory.{fails_next};
ghost use Rattle.dbn_io.specs.declared.trouble.Trouble.{Trouble};
ghost use Rattle.dbn_disk.specs.Disk.{ReadsFrom, written, Keeps, Torn, Cut, Follows, Only, Still, Elapses};
ghost use Rattle.dbn_disk.specs.MemCalls.{Counted};
ghost use Rattle.dbn_disk.specs.MemState.{MemState, IsMemDisk, fresh, disk_state, then_sync};
ghost use Rattle.dbn_disk.specs.Images.{IsImage, moment_at};
ghost use Rattle.dbn_disk.specs.Picked.{image_of, free_bytes};

use crate::device::Disk;
use crate::held::{cut_if, note, outcome, prepare, put_if};
use crate::log::Call;
use crate::past::{ImagePick, rebuild};
use dbn_io::{Bytes, Calls, FaultPlan, Trouble};
use std::alloc::{AllocError, Global};
use std::marker::Model;

/// A disk in memory, which tells its bytes and is honest. It keeps what it began with and each call that its clock
/// counts, so that what a crash may have left can be made. A call that was to fail leaves the bytes held as they were.
#[derive(Drop)]
pub struct MemDisk {
    alloc: Global,
    first: Bytes,
    held: Vec<u8>,
    calls: Vec<Call>,
    pending: bool,
    plan: FaultPlan,
}

impl Model for MemDisk {
    ghost Value = { MemState };

    ghost view = { λ disk. record { first = disk.first; calls = disk.calls.items; plan = disk.plan } };

    ghost invariant = { λ disk. IsMemDisk disk.first disk.calls.items disk.held.items disk.pending (vec_len disk.calls) (vec_capacity disk.calls) };
}

impl MemDisk {
    /// A disk that holds `bytes`, all of them stable, whose calls with the numbers `fails`, from 0, are to fail. Its
    /// count and its clock begin at 0.
    pub fn new(alloc: Global, bytes: Bytes, fails: Calls) -> Result<MemDisk, AllocError>
        ensures { IfOk result (λ disk. disk ≡ fresh bytes fails) }
    {
        let held = bytes.as_slice().to_vec(alloc)?;
        Ok(MemDisk {
            alloc,
            first: bytes,
            held,
            calls: Vec::new(alloc),
            pending: false,
            plan: FaultPlan::new(fails),
        })
    }

    /// What a crash at the clock's value `pick.moment` may have left: the image of the permitted length that is nearest to
    /// `pick.len`, whose free bytes are `pick.loose` in order, then zeros. A moment past the clock is the present one. The
    /// new disk holds it, all of it stable; none of its calls is to fail, and its count and its clock begin at 0.
    pub fn image(&self, alloc: Global, pick: &ImagePick) -> Result<MemDisk, AllocError>
        ensures made { IfOk result (λ disk. disk ≡ fresh (image_of (moment_at self.now.first self.now.calls pick.now.moment) pick.now.len pick.now.loose) []) }
        ensures is_image { IfOk result (λ disk. IsImage (moment_at self.now.first self.now.calls pick.now.moment) disk.first) }
        ensures each { IfOk result (λ disk. (c : List ℕ) → IsImage (moment_at self.now.first self.now.calls pick.now.moment) c → pick.now.len ≡ length c
            → pick.now.loose ≡ free_bytes (moment_at self.now.first self.now.calls pick.now.moment) c (length c) → disk.first ≡ c) }
    {
        self.picked(alloc, pick)
    }

    // The disk that holds the image that was picked.
    fn picked(&self, alloc: Global, pick: &ImagePick) -> Result<MemDisk, AllocError>
        ensures { IfOk result (λ disk. disk ≡ fresh (image_of (moment_at self.now.first self.now.calls pick.now.moment) pick.now.len pick.now.loose) []) }
    {
        let count = self.calls.len().min(pick.moment as usize);
        let replay = rebuild(alloc, self.first.as_slice(), &self.calls[..count])?;
        let bytes = replay.image(alloc, pick.len, pick.loose.as_slice())?;
        let fails = Calls::from_vec(Vec::new(alloc));
        MemDisk::new(alloc, Bytes::from_vec(bytes), fails)
    }
}

impl Disk for MemDisk {
    ghost use Rattle.dbn_disk.specs.SoundLaws.{is_sound};

    ghost state = { λ disk. disk_state disk };

    ghost sound = { λ disk honest. is_sound disk };

    fn len(&mut self) -> Result<u64, Trouble>
        ensures length { (b : List ℕ) → (disk_state self.old).content ≡ Some b → IfOk result (λ count. count ≡ length b) }
        ensures same { (disk_state self.new).content ≡ (disk_state self.old).content }
        ensures still { IsTrue (disk_state self.old).honest → Still (disk_state self.old) (disk_state self.new) }
        ensures keeps { Keeps (disk_state self.old) (disk_state self.new) }
        ensures cause { HasCause (disk_state self.old).faults (disk_state self.new).faults result }
        ensures counted { Counted self.old self.new self.old.calls result }
        ensures memory { IsErrOf result Trouble.Memory → ⊥ }
    {
        outcome(!self.plan.fails_next())?;
        Ok(self.held.len() as u64)
    }

    fn read(&mut self, at: u64, into: &mut [u8]) -> Result<usize, Trouble>
        ensures bound { ReadsAtMost result into.new }
        ensures bytes { (b : List ℕ) → (disk_state self.old).content ≡ Some b → IfOk result (λ count. ReadsFrom at count into.new b) }
        ensures same { (disk_state self.new).content ≡ (disk_state self.old).content }
        ensures still { IsTrue (disk_state self.old).honest → Still (disk_state self.old) (disk_state self.new) }
        ensures keeps { Keeps (disk_state self.old) (disk_state self.new) }
        ensures cause { HasCause (disk_state self.old).faults (disk_state self.new).faults result }
        ensures counted { Counted self.old self.new self.old.calls result }
        ensures memory { IsErrOf result Trouble.Memory → ⊥ }
    {
        outcome(!self.plan.fails_next())?;
        let from = self.held.len().min(at as usize);
        let (_, left) = self.held.as_slice().split_at(from);
        let count = left.len().min(into.len());
        into[..count].copy_from_slice(&left[..count]);
        Ok(count)
    }

    fn write_at(&mut self, at: u64, bytes: &[u8]) -> Result<(), Trouble>
        requires { at + length bytes.now ≤ 2 ^ 62 }
        ensures value { OnOk result ((disk_state self.new).content ≡ option_map (written at bytes.now) (disk_state self.old).content) }
        ensures memory { IsErrOf result Trouble.Memory → (disk_state self.new).content ≡ (disk_state self.old).content }
        ensures crash { IsTrue (disk_state self.old).honest → Follows (Torn at (length bytes.now)) (disk_state self.old).image (disk_state self.new).image }
        ensures time { IsTrue (disk_state self.old).honest → Elapses (disk_state self.old) (disk_state self.new) }
        ensures keeps { Keeps (disk_state self.old) (disk_state self.new) }
        ensures cause { HasCause (disk_state self.old).faults (disk_state self.new).faults result }
        ensures counted { (IsErrOf result Trouble.Memory → ⊥) → Counted self.old self.new (self.old.calls ++ Call.Write at bytes.now (not (fails_next self.old.plan)) ∷ []) result }
        ensures untouched { IsErrOf result Trouble.Memory → IsTrue (disk_state self.old).honest → Still (disk_state self.old) (disk_state self.new) }
        ensures unchanged { IsErrOf result Trouble.Memory → self.new ≡ self.old }
    {
        let Ok(copy) = prepare(
            self.alloc,
            &mut self.held,
            &mut self.calls,
            at as usize,
            bytes,
        ) else {
            return Err(Trouble::Memory);
        };
        let done = !self.plan.fails_next();
        put_if(&mut self.held, at as usize, bytes, done);
        let call = Call::Write {
            at,
            bytes: copy,
            done,
        };
        note(&mut self.calls, call);
        self.pending = true;
        outcome(done)
    }

    fn cut(&mut self, to: u64) -> Result<(), Trouble>
        ensures value { OnOk result ((disk_state self.new).content ≡ option_map (take to) (disk_state self.old).content) }
        ensures memory { IsErrOf result Trouble.Memory → (disk_state self.new).content ≡ (disk_state self.old).content }
        ensures crash { IsTrue (disk_state self.old).honest → Follows (Cut to) (disk_state self.old).image (disk_state self.new).image }
        ensures time { IsTrue (disk_state self.old).honest → Elapses (disk_state self.old) (disk_state self.new) }
        ensures keeps { Keeps (disk_state self.old) (disk_state self.new) }
        ensures cause { HasCause (disk_state self.old).faults (disk_state self.new).faults result }
        ensures counted { (IsErrOf result Trouble.Memory → ⊥) → Counted self.old self.new (self.old.calls ++ Call.Cut to (not (fails_next self.old.plan)) ∷ []) result }
        ensures untouched { IsErrOf result Trouble.Memory → IsTrue (disk_state self.old).honest → Still (disk_state self.old) (disk_state self.new) }
        ensures unchanged { IsErrOf result Trouble.Memory → self.new ≡ self.old }
    {
        let Ok(()) = self.calls.reserve(2) else {
            return Err(Trouble::Memory);
        };
        let done = !self.plan.fails_next();
        cut_if(&mut self.held, to, done);
        note(&mut self.calls, Call::Cut { to, done });
        self.pending = true;
        outcome(done)
    }

    fn sync(&mut self) -> Result<(), Trouble>
        ensures durable { OnOk result ((b : List ℕ) → IsTrue (disk_state self.old).honest → (disk_state self.old).content ≡ Some b → Only b (disk_state self.new).image) }
        ensures same { (disk_state self.new).content ≡ (disk_state self.old).content }
        ensures crash { IsTrue (disk_state self.old).honest → (c : List ℕ) → (disk_state self.new).image c → (disk_state self.old).image c }
        ensures time { IsTrue (disk_state self.old).honest → Elapses (disk_state self.old) (disk_state self.new) }
        ensures keeps { Keeps (disk_state self.old) (disk_state self.new) }
        ensures cause { HasCause (disk_state self.old).faults (disk_state self.new).faults result }
        ensures undone { IsErrOf result Trouble.Failed → IsTrue (disk_state self.old).honest → Still (disk_state self.old) (disk_state self.new) }
        ensures memory { IsErrOf result Trouble.Memory → ⊥ }
        ensures counted { Counted self.old self.new (cond (fails_next self.old.plan) self.old.calls (then_sync self.old.calls)) result }
    {
        outcome(!self.plan.fails_next())?;
        if self.pending {
            note(&mut self.calls, Call::Sync);
            self.pending = false;
        }
        Ok(())
    }
}
