//! The G-stage tables of a guest in host memory: they lead each page of the guest's memory to its
//! own frame, and nothing else anywhere (Privileged Architecture 20211203, section 8.5.1, Sv39x4).
#![tactic(auto)]

mod clear;
mod count;
mod eager;
mod law;
mod own;
mod tables;

pub use clear::unmap_all;
pub use count::audit;
pub use eager::map;
pub use law::{pages_have_frames, reserved_frames_lie_in_the_area, tables_are_local};
pub use own::frame_of;
pub use tables::fill;

#[cfg(test)]
mod tests;
