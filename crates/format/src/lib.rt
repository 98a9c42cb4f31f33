// The format of a sheet: what each byte of a frame may be, and the frames with their parts.
#![tactic(auto)]

pub mod cursor;
pub mod frame;
pub mod parts;
pub mod read;
pub mod rule;
