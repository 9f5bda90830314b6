//! What a host hands out to its guests: frames of the pool, root tables, and ranges of its reserved
//! area, under exact counts.
#![tactic(auto)]

mod fault;
mod frames;
mod ranges;
mod roots;
#[cfg(test)]
mod tests;

ghost use Rattle.std.specs.Prelude.{◌≡◌, ℕ, ◌+◌, ◌^◌, ◌<◌, ◌≤◌, [], ◌∷◌, ◌++◌, ◌↔◌, true, false};
ghost use Rattle.std.specs.Prelude.{length, take, drop, sum_by, Contains, Err, IfOk, IfErr, OnOk};
ghost use Rattle.std.specs.Prelude.{OnErr, is_err, IsErr, slice_get, slice_set, vec_len};
ghost use Rattle.std.specs.Prelude.{vec_capacity, Some};
ghost use Rattle.xv_base.specs.Range.{LiesIn, meets_one, range_end};
ghost use Rattle.xv_pool.specs.Resources.{IsSound, fresh, all_out, tested};

pub use fault::PoolFault;
use frames::Frames;
use ranges::{any_is_held, is_held, place_of};
use roots::least_root;
use std::alloc::Global;
use std::marker::Model;
use xv_base::{NoMemory, Span};

/// The most ranges that are held at once: 32 regions of each of 16 guests.
const MOST_HELD: usize = 512;

/// The frames, root tables and reserved ranges of a host, each of which somebody has or nobody.
/// Only `new` takes memory.
#[derive(Drop)]
pub struct Pool {
    frames: Frames,
    roots: [bool; 16],
    area: Span,
    held: Vec<Span>,
}

impl Model for Pool {
    ghost use Rattle.xv_pool.specs.Resources.{Resources};

    ghost Value = { Resources };

    ghost use Rattle.xv_pool.specs.Kept.{resources_of, IsKept};

    ghost view = { resources_of };

    ghost invariant = { IsKept };
}

impl Pool {
    /// A pool of so many frames from number `first` on, the 16 root tables and the reserved area,
    /// in bytes. Nobody has anything of it.
    pub fn new(alloc: Global, first: u32, frames: u32, area: Span) -> Result<Pool, NoMemory>
        requires frames_end { first + frames ≤ 2 ^ 32 }
        requires area_end { range_end area ≤ 2 ^ 64 }
        ensures fresh { IfOk result (λ pool. pool ≡ fresh first frames area) }
        ensures sound { IfOk result (λ pool. IsSound pool) }
    {
        let all = Frames::new(alloc, first, frames)?;
        let held = Vec::with_capacity(alloc, MOST_HELD)?;
        Ok(Pool {
            frames: all,
            roots: [false; 16],
            area,
            held,
        })
    }

    /// Whether a root table, `need` frames and these ranges can be had, or the first of them that
    /// can't.
    pub fn test(&self, need: u64, ranges: &[Span]) -> Result<(), PoolFault>
        ensures answer { result ≡ tested self.now need ranges.now }
        ensures sound { IsSound self.now }
    {
        let free = self.frames.free();
        if least_root(&self.roots).is_none() {
            Err(PoolFault::NoRoot)
        } else if need > free {
            Err(PoolFault::NoFrame { need, free })
        } else if any_is_held(&self.held, ranges) {
            Err(PoolFault::ReservedBusy)
        } else {
            Ok(())
        }
    }

    /// Takes the `need` free frames of the least numbers and appends them to `into`.
    pub fn take_n(&mut self, need: u64, into: &mut Vec<u32>) -> Result<(), PoolFault>
        requires room { need ≤ length self.old.free
            → vec_len into.old + need ≤ vec_capacity into.old }

        ensures frames { OnOk result (into.new.items ≡ into.old.items ++ take need self.old.free) }
        ensures others { OnOk result
            (self.new ≡ record self.old { free = drop need self.old.free }) }
        ensures sums { (weight : ℕ → ℕ) → sum_by weight into.new.items + sum_by weight self.new.free
            ≡ sum_by weight into.old.items + sum_by weight self.old.free }
        ensures capacity { vec_capacity into.old ≤ vec_capacity into.new }
        ensures sound { IsSound self.new }

        ensures refused { IsErr result ↔ (length self.old.free < need) }
        ensures fault { IfErr result
            (λ fault. fault ≡ PoolFault.NoFrame need (length self.old.free)) }
        ensures unchanged { OnErr result (self.new ≡ self.old) }
        ensures nothing { OnErr result (into.new.items ≡ into.old.items) }
    {
        self.frames.take_n(need, into)
    }

    /// Makes a frame of the pool free that isn't.
    pub fn give(&mut self, frame: u32)
        requires least { self.old.first ≤ frame }
        requires greatest { frame < self.old.first + self.old.count }
        requires out { ¬ Contains self.old.free frame }
        ensures sums { (weight : ℕ → ℕ)
            → sum_by weight self.new.free ≡ weight frame + sum_by weight self.old.free }
        ensures others { self.new ≡ record self.old { free = self.new.free } }
        ensures sound { IsSound self.new }
    {
        self.frames.give(frame);
    }

    /// Takes the root table of the least number that isn't out.
    pub fn take_root(&mut self) -> Result<u8, PoolFault>
        ensures root { IfOk result
            (λ root. (root < 16) × (slice_get self.old.roots root ≡ Some false)) }
        ensures least { IfOk result
            (λ root. (k : ℕ) → k < root → slice_get self.old.roots k ≡ Some true) }
        ensures taken { IfOk result
            (λ root. self.new ≡ record self.old { roots = slice_set self.old.roots root true }) }
        ensures sound { IsSound self.new }

        ensures refused { is_err result ≡ all_out self.old.roots }
        ensures fault { IfErr result (λ fault. fault ≡ PoolFault.NoRoot) }
        ensures unchanged { OnErr result (self.new ≡ self.old) }
    {
        let Some(root) = least_root(&self.roots) else {
            return Err(PoolFault::NoRoot);
        };
        self.roots[root as usize] = true;
        Ok(root)
    }

    /// Gives back a root table that is out.
    pub fn give_root(&mut self, root: u8)
        requires out { slice_get self.old.roots root ≡ Some true }
        ensures given { self.new ≡ record self.old { roots = slice_set self.old.roots root false } }
        ensures sound { IsSound self.new }
    {
        self.roots[root as usize] = false;
    }

    /// Takes a range of the reserved area that shares no byte with a held one.
    pub fn take_reserved(&mut self, range: Span) -> Result<(), PoolFault>
        requires area { LiesIn range self.old.area }
        requires room { length self.old.held < 512 }

        ensures taken { OnOk result
            (self.new ≡ record self.old { held = self.old.held ++ range ∷ [] }) }
        ensures sound { IsSound self.new }

        ensures refused { is_err result ≡ meets_one self.old.held range }
        ensures fault { IfErr result (λ fault. fault ≡ PoolFault.ReservedBusy) }
        ensures unchanged { OnErr result (self.new ≡ self.old) }
    {
        if is_held(&self.held, &range) {
            return Err(PoolFault::ReservedBusy);
        }
        let Ok(()) = self.held.push(range) else {
            unreachable!("there is room");
        };
        Ok(())
    }

    /// Gives back a range that is held.
    pub fn give_reserved(&mut self, range: Span)
        requires held { Contains self.old.held range }
        ensures sums { (weight : Span → ℕ)
            → weight range + sum_by weight self.new.held ≡ sum_by weight self.old.held }
        ensures count { length self.new.held + 1 ≡ length self.old.held }
        ensures others { self.new ≡ record self.old { held = self.new.held } }
        ensures sound { IsSound self.new }
    {
        let Some(place) = place_of(&self.held, range) else {
            unreachable!("the range is held");
        };
        self.held.remove(place);
    }

    /// How many frames are free.
    pub fn free(&self) -> u64
        ensures count { result ≡ length self.now.free }
        ensures sound { IsSound self.now }
    {
        self.frames.free()
    }
}
