//! The words of the guest's memory that a walk of its page tables reads.
ghost use Rattle.std.specs.Prelude.{◌≡◌, ◌⊎◌, ◌+◌, ◌*◌, ◌/◌, ◌^◌, ◌≤◌, length, take};
ghost use Rattle.xv_pte.specs.Sv39.{verdict};
ghost use Rattle.xv_sv39.specs.Translate.{verdict_of};
ghost use Rattle.xv_hart.specs.Stage.{words_of, HasStage};

use std::sync::ledger::Ledger;
use xv_mem::{HostMem, Steps};
use xv_pte::{Kind3, View, walk};
use xv_sv39::{WalkFault, Words, translate};

/// A reader of these words through the tables of a root. Each takes at most four accesses to host
/// memory: three to lead its address to a place, and the one there.
#[derive(Drop)]
pub(crate) struct Tables<'a, L: Ledger> {
    mem: &'a HostMem,
    root: u8,
    steps: &'a mut Steps<L>,
    asked: [u64; 3],
    count: usize,
    ghost inside: { HasStage mem.now root },
}

impl<'a, L: Ledger> Tables<'a, L> {
    pub(crate) fn new(mem: &'a HostMem, root: u8, steps: &'a mut Steps<L>) -> Tables<'a, L>
        requires { HasStage mem.now root }
        ensures mem { result.mem.now ≡ mem.now }
        ensures root { result.root ≡ root }
        ensures steps { result.steps.now ≡ steps.old }
        ensures name { result.steps.ghost_name ≡ steps.entry.ghost_name }
        ensures count { result.count ≡ 0 }
    {
        Tables {
            mem,
            root,
            steps,
            asked: [0; 3],
            count: 0,
        }
    }
}

impl<'a, L: Ledger> Words for Tables<'a, L> {
    ghost table = { λ s. words_of s.mem.now s.root };

    ghost addresses = { λ s. take s.count s.asked };

    ghost rule = { λ start s. (s.steps.ghost_name ≡ start.steps.ghost_name)
        × (s.steps.now ≤ start.steps.now + 4 * length (take s.count s.asked)) };

    fn word(&mut self, gpa: u64) -> Option<u64> {
        self.asked[self.count] = gpa;
        self.count += 1;
        let leaf = walk(self.mem, self.root, gpa, self.steps)?;
        Some(self.mem.read64(leaf.host, self.steps))
    }
}

/// The guest physical address of a virtual one, for an access of this kind.
pub(crate) fn translated<L: Ledger>(
    mem: &HostMem,
    root: u8,
    view: &View,
    kind: Kind3,
    va: u64,
    steps: &mut Steps<L>,
) -> Result<u64, WalkFault>
    requires memory { HasStage mem.now root }
    requires mode { (view.now.satp / 2 ^ 60 ≡ 0) ⊎ (view.now.satp / 2 ^ 60 ≡ 8) }
    ensures verdict { verdict_of result ≡ verdict (words_of mem.now root) view.now va kind }
    ensures counted { steps.new ≤ steps.old + 12 }
{
    let mut tables = Tables::new(mem, root, steps);
    translate(
        &mut tables,
        view.satp,
        va,
        kind,
        view.user,
        view.sum,
        view.mxr,
    )
}
