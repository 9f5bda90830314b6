//! The commands of a script.
use xv_base::{Bytes, DevName, FileName, GuestName};

/// A command, and the number of its line, which is counted from 1.
#[derive(Drop)]
pub struct Line {
    pub number: u32,
    pub command: Command,
}

/// What one line of a script asks for. Numbers keep the ranges of the script's grammar.
#[derive(Drop)]
pub enum Command {
    /// `guest create N FILE`: a guest, from a tree in a file.
    Create(GuestName, FileName),
    /// `guest flat N PAGES`: a guest of that many pages of RAM, 1 to 131,072.
    Flat(GuestName, u32),
    /// `guest load N GPA FILE`: the bytes of a file for a guest physical address.
    Load(GuestName, u64, FileName),
    /// `guest poke N GPA HEX`: bytes for a guest physical address.
    Poke(GuestName, u64, Bytes),
    /// `guest kick N`
    Kick(GuestName),
    /// `guest pause N`
    Pause(GuestName),
    /// `guest resume N`
    Resume(GuestName),
    /// `guest reset N`
    Reset(GuestName),
    /// `guest halt N`
    Halt(GuestName),
    /// `guest destroy N`
    Destroy(GuestName),
    /// `guest regs N V`: the registers of a VCPU, of which the guest may have none.
    Regs(GuestName, u64),
    /// `guest mem N GPA LEN`: bytes of memory, 1 to 4,096.
    Mem(GuestName, u64, u32),
    /// `guest digest N`
    Digest(GuestName),
    /// `guest audit N`
    Audit(GuestName),
    /// `guest list`
    List,
    /// `vserial input N/DEV HEX`: bytes for a serial port.
    Input(GuestName, DevName, Bytes),
    /// `vserial dump N/DEV`
    Dump(GuestName, DevName),
    /// `vserial list`
    Ports,
    /// `clock V`
    Clock(u64),
    /// `tick D`
    Tick(u64),
    /// `run T`: turns of the scheduler, 1 to 100,000.
    Run(u32),
}
