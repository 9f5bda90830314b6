//! The registers, and what reads and writes make of them.
ghost use Rattle.std.specs.Prelude.{◌≡◌, ◌^◌, ◌<◌, ◌≤◌, ◌&&◌, false, nat_lt, unwrap_or, slice_set};
ghost use Rattle.std.specs.Prelude.{IfSome};
ghost use Rattle.std.specs.Option.{option_map_or};
ghost use Rattle.xv_base.specs.Bits.{has_bit, with_bit};
ghost use Rattle.xv_bus.specs.Access.{Fits};
ghost use Rattle.xv_bus.specs.Plic as plics;
ghost use Rattle.xv_plic.specs.Registers.{IsContext, IsRegister, lines_of, unit_of};

use crate::map::register_at;
use crate::state::PlicState;
use std::marker::Model;
use xv_bus::{Access, Half, Outcome, PlicRegister, Width};

/// The registers of a PLIC with so many contexts.
#[derive(Drop)]
pub struct Registers {
    contexts: u8,
    priority: [u8; 64],
    pending: u64,
    in_service: u64,
    enables: [u64; 8],
    threshold: [u8; 8],
}

impl Model for Registers {
    ghost use Rattle.xv_bus.specs.Plic.{IsPlic, PlicUnit};

    ghost Value = { PlicUnit };

    ghost view = { λ r. record {
      contexts = r.contexts;
      priority = r.priority;
      pending = r.pending;
      in_service = r.in_service;
      enables = r.enables;
      threshold = r.threshold;
    } };

    ghost invariant = { λ r. IsPlic (record {
      contexts = r.contexts;
      priority = r.priority;
      pending = r.pending;
      in_service = r.in_service;
      enables = r.enables;
      threshold = r.threshold;
    }) };
}

impl Registers {
    #[tactic(auto, unfolding(xv_bus::specs::Plic::new_plic))]
    pub fn new(contexts: u8) -> Registers
        requires { contexts ≤ 8 }
        ensures { result ≡ plics.new_plic contexts }
    {
        Registers {
            contexts,
            priority: [0; 64],
            pending: 0,
            in_service: 0,
            enables: [0; 8],
            threshold: [0; 8],
        }
    }

    pub fn contexts(&self) -> u8
        ensures contexts { result ≡ self.now.contexts }
        ensures most { result ≤ 8 }
        ensures held { plics.IsPlic self.now }
    {
        self.contexts
    }

    pub fn state(&self) -> PlicState
        ensures registers { unit_of self.now.contexts result ≡ self.now }
        ensures held { plics.IsPlic self.now }
    {
        PlicState {
            priority: self.priority,
            pending: self.pending,
            in_service: self.in_service,
            enables: self.enables,
            threshold: self.threshold,
        }
    }

    pub fn put_state(&mut self, state: &PlicState)
        requires { plics.IsPlic (unit_of self.old.contexts state.now) }
        ensures { self.new ≡ unit_of self.old.contexts state.now }
    {
        let contexts = self.contexts;
        *self = Registers {
            contexts,
            priority: state.priority,
            pending: state.pending,
            in_service: state.in_service,
            enables: state.enables,
            threshold: state.threshold,
        };
    }

    /// Makes the sources pending whose lines are up, but for those in service.
    #[tactic(auto, unfolding(xv_bus::specs::Plic::lifted))]
    pub fn lift(&mut self, sources: u64)
        requires { has_bit 0 sources ≡ false }
        ensures { self.new ≡ plics.lifted sources self.old }
    {
        self.pending |= sources & !self.in_service;
    }

    /// One access at an offset.
    #[tactic(auto, unfolding(xv_bus::specs::Plic::plic_accessed))]
    pub fn access(&mut self, at: u64, access: Access) -> Outcome
        requires { Fits access }
        ensures outcome { result ≡ (plics.plic_accessed self.old at access).outcome }
        ensures device { self.new ≡ (plics.plic_accessed self.old at access).device }
    {
        if at % 4 != 0 {
            return Outcome::Refused;
        }
        match access {
            Access::Load(Width::W4) => self.load(at),
            Access::Store(Width::W4, value) => self.store(at, value),
            _ => Outcome::Refused,
        }
    }

    fn load(&mut self, at: u64) -> Outcome
        ensures outcome { result ≡ (plics.plic_load self.old at).outcome }
        ensures device { self.new ≡ (plics.plic_load self.old at).device }
    {
        match register_at(self.contexts(), at) {
            Some(register) => Outcome::Value(self.read(register)),
            None => Outcome::Value(0),
        }
    }

    fn store(&mut self, at: u64, value: u64) -> Outcome
        requires { value < 2 ^ 32 }
        ensures outcome { result ≡ (plics.plic_store self.old at value).outcome }
        ensures device { self.new ≡ (plics.plic_store self.old at value).device }
    {
        if let Some(register) = register_at(self.contexts(), at) {
            self.write(register, value);
        }
        Outcome::Done
    }

    #[tactic(auto, unfolding(crate::proofs::Words::read))]
    fn read(&mut self, register: PlicRegister) -> u64
        requires { IsRegister self.old.contexts register }
        ensures value { result ≡ plics.plic_shown self.old register }
        ensures after { self.new ≡ plics.plic_after_read self.old register }
    {
        match register {
            PlicRegister::Priority(id) => self.priority_of(id) as u64,
            PlicRegister::Pending(half) => half_of(half, self.pending),
            PlicRegister::Enables(context, half) => half_of(half, self.enables_of(context)),
            PlicRegister::Threshold(context) => self.threshold_of(context) as u64,
            PlicRegister::Claim(context) => self.claim(context) as u64,
        }
    }

    #[tactic(auto, unfolding(xv_bus::specs::Plic::plic_written))]
    fn write(&mut self, register: PlicRegister, value: u64)
        requires register { IsRegister self.old.contexts register }
        requires value { value < 2 ^ 32 }
        ensures { self.new ≡ plics.plic_written self.old register value }
    {
        match register {
            PlicRegister::Priority(id) => self.put_priority(id, (value % 8) as u8),
            PlicRegister::Pending(_) => {}
            PlicRegister::Enables(context, half) => self.put_enables(context, half, value),
            PlicRegister::Threshold(context) => self.put_threshold(context, (value % 8) as u8),
            PlicRegister::Claim(context) => self.complete(context, value),
        }
    }

    fn priority_of(&self, id: u8) -> u8
        requires { id < 64 }
        ensures { result ≡ plics.priority_of self.now id }
    {
        self.priority[id as usize]
    }

    fn enables_of(&self, context: u8) -> u64
        requires { context < 8 }
        ensures { result ≡ plics.enables_of self.now context }
    {
        self.enables[context as usize]
    }

    fn threshold_of(&self, context: u8) -> u8
        requires { context < 8 }
        ensures { result ≡ plics.threshold_of self.now context }
    {
        self.threshold[context as usize]
    }

    fn put_priority(&mut self, id: u8, priority: u8)
        requires id { (0 < id) × (id < 64) }
        requires priority { priority < 2 ^ 3 }
        ensures { self.new ≡ record self.old {
          priority = slice_set self.old.priority id priority;
        } }
    {
        self.priority[id as usize] = priority;
    }

    fn put_threshold(&mut self, context: u8, threshold: u8)
        requires context { IsContext self.old.contexts context }
        requires threshold { threshold < 2 ^ 3 }
        ensures { self.new ≡ record self.old {
          threshold = slice_set self.old.threshold context threshold;
        } }
    {
        self.threshold[context as usize] = threshold;
    }

    fn put_enables(&mut self, context: u8, half: Half, value: u64)
        requires context { IsContext self.old.contexts context }
        requires value { value < 2 ^ 32 }
        ensures { self.new ≡ plics.with_enables context half value self.old }
    {
        let mask = with_half(half, value, self.enables_of(context));
        self.enables[context as usize] = with_bit(0, false, mask);
    }

    /// Claims the source that comes first for the context, and answers it, or 0.
    fn claim(&mut self, context: u8) -> u8
        requires { context < 8 }
        ensures value { result ≡ unwrap_or (plics.claim self.old context) 0 }
        ensures after { self.new ≡
            option_map_or (plics.claimed self.old) (plics.claim self.old context) self.old }
    {
        match self.first(context) {
            Some(id) => {
                self.pending = with_bit(id, false, self.pending);
                self.in_service = with_bit(id, true, self.in_service);
                id
            }
            None => 0,
        }
    }

    /// Ends the service of a source, where the context may.
    fn complete(&mut self, context: u8, id: u64)
        requires { context < 8 }
        ensures { self.new ≡ plics.completed self.old context id }
    {
        if self.is_served(context, id) {
            self.in_service = with_bit(id as u8, false, self.in_service);
        }
    }

    fn is_served(&self, context: u8, id: u64) -> bool
        requires { context < 8 }
        ensures { result ≡ plics.is_served self.now context id }
    {
        id < 64 && has_bit(id as u8, self.enables_of(context)) && has_bit(id as u8, self.in_service)
    }

    fn is_waiting(&self, context: u8, id: u8) -> bool
        requires context { context < 8 }
        requires id { id < 64 }
        ensures { result ≡ plics.is_waiting self.now context id }
    {
        has_bit(id, self.pending) && has_bit(id, self.enables_of(context))
    }

    /// The source that the context would claim.
    fn first(&self, context: u8) -> Option<u8>
        requires { context < 8 }
        ensures claim { result ≡ plics.claim self.now context }
        ensures source { IfSome result (λ id. (0 < id) × (id < 64)) }
    {
        let _ = &self.contexts;
        let mut best = 0;
        for id in 1..64 {
            if self.beats(context, id, best) {
                best = id;
            }
        }
        if best == 0 { None } else { Some(best) }
    }

    /// Whether a source is to be claimed rather than one that came before it, which may be none.
    fn beats(&self, context: u8, id: u8, best: u8) -> bool
        requires context { context < 8 }
        requires id { id < 64 }
        requires best { best < 64 }
        ensures { result ≡ (plics.is_waiting self.now context id
            && nat_lt (plics.priority_of self.now best) (plics.priority_of self.now id)) }
    {
        self.is_waiting(context, id) && self.priority_of(best) < self.priority_of(id)
    }

    /// The lines of eight contexts; of those that aren't there none is up.
    pub fn lines(&self) -> [bool; 8]
        ensures lines { result ≡ lines_of self.now }
        ensures most { self.now.contexts ≤ 8 }
    {
        let _ = &self.contexts;
        [
            self.line(0),
            self.line(1),
            self.line(2),
            self.line(3),
            self.line(4),
            self.line(5),
            self.line(6),
            self.line(7),
        ]
    }

    /// Whether the line of the context is up.
    fn line(&self, context: u8) -> bool
        requires { context < 8 }
        ensures { result ≡ plics.context_line self.now context }
    {
        for id in 0..64 {
            if self.is_above_threshold(context, id) {
                return true;
            }
        }
        false
    }

    fn is_above_threshold(&self, context: u8, id: u8) -> bool
        requires context { context < 8 }
        requires id { id < 64 }
        ensures { result ≡ plics.is_above_threshold self.now context id }
    {
        self.is_waiting(context, id) && self.threshold_of(context) < self.priority_of(id)
    }
}

fn has_bit(bit: u8, mask: u64) -> bool
    requires { bit < 64 }
    ensures { result ≡ has_bit bit mask }
{
    mask >> bit & 1 == 1
}

fn with_bit(bit: u8, value: bool, mask: u64) -> u64
    requires { bit < 64 }
    ensures { result ≡ with_bit bit value mask }
{
    if value {
        mask | 1 << bit
    } else {
        mask & !(1 << bit)
    }
}

fn half_of(half: Half, mask: u64) -> u64
    ensures { result ≡ plics.half_of half mask }
{
    match half {
        Half::Low => mask % (1 << 32),
        Half::High => mask >> 32,
    }
}

/// The mask with one half written.
fn with_half(half: Half, value: u64, mask: u64) -> u64
    requires { value < 2 ^ 32 }
    ensures { result ≡ plics.with_half half value mask }
{
    match half {
        Half::Low => (mask >> 32 << 32) + value,
        Half::High => mask % (1 << 32) + (value << 32),
    }
}
