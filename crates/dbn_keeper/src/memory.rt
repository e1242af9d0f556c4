//! A keeper in memory.

ghost use Rattle.std.specs.Prelude.{◌≡◌, ◌^◌, ◌≤◌, [], true};
ghost use Rattle.dbn_keeper.specs.Memory.{mem_state};

use crate::base::{Base, Step};
use crate::keeper::Keeper;
use crate::opening::Form;
use dbn_io::{Bytes, Trouble};
use std::alloc::Global;

/// Bodies in memory, of form two. It has no cap, hands out no body and never fails but for memory. Its one image, now and
/// since each moment, is what it holds.
#[derive(Drop)]
pub struct MemKeeper {
    base: Base,
    generation: u64,
    bodies: Vec<Bytes>,
    live: bool,
    ghost last_generation: { generation ≤ 2 ^ 62 },
    ghost numbers: { (base.fired ≤ 2 ^ 62) × (base.next ≤ 2 ^ 62) },
}

impl MemKeeper {
    /// A live keeper of this base, of generation 1 and without bodies.
    pub fn new(alloc: Global, base: Base) -> MemKeeper
        requires { (base.fired ≤ 2 ^ 62) × (base.next ≤ 2 ^ 62) }
        ensures base { result.base ≡ base }
        ensures generation { result.generation ≡ 1 }
        ensures bodies { result.bodies.items ≡ [] }
        ensures live { result.live ≡ true }
    {
        MemKeeper {
            base,
            generation: 1,
            bodies: Vec::new(alloc),
            live: true,
        }
    }
}

impl Keeper for MemKeeper {
    ghost use Rattle.dbn_keeper.specs.Memory.{mem_state, mem_sound, mem_settled};

    ghost state = { λ k. mem_state k.base k.generation k.bodies.items k.live };

    ghost sound = { λ k honest. mem_sound k.base k.generation k.bodies.items k.live };

    ghost settled = { λ k live. mem_settled k.base k.generation k.bodies.items k.live k.numbers };

    fn is_live(&self) -> bool {
        self.live
    }

    fn form(&self) -> Form {
        Form::Two
    }

    fn base(&self) -> &Base {
        &self.base
    }

    fn generation(&self) -> u64 {
        self.generation
    }

    fn next_body(&mut self, _alloc: Global) -> Result<Step, Trouble> {
        Ok(Step::End)
    }

    fn at_end(&self) -> bool {
        true
    }

    fn records(&self) -> u64 {
        self.bodies.len() as u64
    }

    fn room(&self, _len: usize) -> bool {
        true
    }

    fn append(&mut self, alloc: Global, body: &[u8]) -> Result<(), Trouble> {
        self.live = false;
        let Ok(copy) = body.to_vec(alloc) else {
            return Err(Trouble::Memory);
        };
        if self.bodies.push(Bytes::from_vec(copy)).is_err() {
            return Err(Trouble::Memory);
        }
        self.live = true;
        Ok(())
    }

    fn fits(&self, _text_len: usize) -> bool {
        self.generation < 1 << 62
    }

    fn checkpoint(&mut self, alloc: Global, base: Base) -> Result<u64, Trouble> {
        self.base = base;
        self.generation += 1;
        self.bodies = Vec::new(alloc);
        Ok(self.generation)
    }
}
