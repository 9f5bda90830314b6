//! The frames of a pool, each with a mark that says whether it is free.
ghost use Rattle.std.specs.Prelude.{◌≡◌, ℕ, ◌+◌, ◌^◌, ◌<◌, ◌≤◌, ◌∷◌, ◌++◌, ◌↔◌, true, false};
ghost use Rattle.std.specs.Prelude.{length, take, drop, sum_by, Contains, IfOk, IfSome, IfNone};
ghost use Rattle.std.specs.Prelude.{IfErr, IsErr, OnOk, OnErr, Err, slice_index_or, vec_len};
ghost use Rattle.std.specs.Prelude.{vec_capacity};
ghost use Rattle.xv_pool.specs.FrameList.{all_free, AreFree};

use crate::PoolFault;
use std::alloc::Global;
use std::marker::Model;
use xv_base::NoMemory;

/// The frames of a pool, seen as the numbers of the first and of those that are free, and how many
/// there are in all.
#[derive(Drop)]
pub(crate) struct Frames {
    first: u32,
    // true where the frame is free
    marks: Vec<bool>,
    free: u64,
    // no frame before this place is free, so the search begins here
    next: usize,
}

impl Model for Frames {
    ghost use Rattle.xv_pool.specs.FrameList.{FrameList};

    ghost Value = { FrameList };

    ghost use Rattle.xv_pool.specs.Marks.{frame_list, IsMarked};

    ghost view = { frame_list };

    ghost invariant = { IsMarked };
}

impl Frames {
    /// `count` frames from `first` on, all free.
    pub(crate) fn new(alloc: Global, first: u32, count: u32) -> Result<Frames, NoMemory>
        requires { first + count ≤ 2 ^ 32 }
        ensures free { IfOk result (λ frames. frames ≡ all_free first count) }
        ensures facts { IfOk result (λ frames. AreFree frames) }
    {
        let marks = vec![in alloc; true; count as usize]?;
        Ok(Frames {
            first,
            marks,
            free: count as u64,
            next: 0,
        })
    }

    /// How many frames are free.
    pub(crate) fn free(&self) -> u64
        ensures count { result ≡ length self.now.free }
        ensures facts { AreFree self.now }
    {
        self.free
    }

    /// Appends the first `need` of the free frames, which aren't free then.
    pub(crate) fn take_n(&mut self, need: u64, into: &mut Vec<u32>) -> Result<(), PoolFault>
        requires { need ≤ length self.old.free → vec_len into.old + need ≤ vec_capacity into.old }
        ensures frames { OnOk result (into.new.items ≡ into.old.items ++ take need self.old.free) }
        ensures others { OnOk result
            (self.new ≡ record self.old { free = drop need self.old.free }) }
        ensures sums { (weight : ℕ → ℕ) → sum_by weight into.new.items + sum_by weight self.new.free
            ≡ sum_by weight into.old.items + sum_by weight self.old.free }
        ensures capacity { vec_capacity into.old ≤ vec_capacity into.new }
        ensures facts { AreFree self.new }
        ensures refused { IsErr result ↔ (length self.old.free < need) }
        ensures fault { IfErr result
            (λ fault. fault ≡ PoolFault.NoFrame need (length self.old.free)) }
        ensures unchanged { OnErr result (self.new ≡ self.old) }
        ensures nothing { OnErr result (into.new.items ≡ into.old.items) }
    {
        let free = self.free();
        if need > free {
            return Err(PoolFault::NoFrame { need, free });
        }
        for _ in 0..need {
            let frame = self.take_least();
            let Ok(()) = into.push(frame) else {
                unreachable!("there is room");
            };
        }
        Ok(())
    }

    fn take_least(&mut self) -> u32
        requires { 0 < length self.old.free }
        ensures frame { self.old.free ≡ result ∷ self.new.free }
        ensures others { self.new ≡ record self.old { free = self.new.free } }
        ensures facts { AreFree self.new }
    {
        let Some(place) = first_set(&self.marks, self.next) else {
            unreachable!("a frame is free");
        };
        self.marks[place] = false;
        self.free -= 1;
        self.next = place + 1;
        self.first + place as u32
    }

    /// Makes a frame free that isn't.
    pub(crate) fn give(&mut self, frame: u32)
        requires least { self.old.first ≤ frame }
        requires greatest { frame < self.old.first + self.old.count }
        requires out { ¬ Contains self.old.free frame }
        ensures sums { (weight : ℕ → ℕ)
            → sum_by weight self.new.free ≡ weight frame + sum_by weight self.old.free }
        ensures others { self.new ≡ record self.old { free = self.new.free } }
        ensures facts { AreFree self.new }
    {
        let place = (frame - self.first) as usize;
        self.marks[place] = true;
        self.free += 1;
        self.next = self.next.min(place);
    }
}

// the first place from `from` on whose mark is set
fn first_set(marks: &[bool], from: usize) -> Option<usize>
    ensures found { IfSome result (λ place. (place < length marks.now)
        × (slice_index_or marks.now place false ≡ true)) }
    ensures first { IfSome result (λ place. (from ≤ place)
        × ((k : ℕ) → from ≤ k → k < place → slice_index_or marks.now k false ≡ false)) }
    ensures none { IfNone result ((k : ℕ) → from ≤ k → slice_index_or marks.now k false ≡ false) }
{
    for place in from..marks.len() {
        if marks[place] {
            return Some(place);
        }
    }
    None
}
