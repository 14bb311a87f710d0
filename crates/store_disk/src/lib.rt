// A disk that outlives a stop, and records on it that a stop at any moment leaves whole.
//
// A `Disk` is bytes that are read and written by place. What a contract says of it rests on what reads give, on what a
// stop may leave, now and at each moment of a call, and on a count of faults that never falls. An image holds records
// one behind another; `append_group` adds one or more, so that a stop at any moment leaves the records from before the
// call, or those and all the new ones, and once it has answered Ok the new ones too. `append` adds one.
#![tactic(auto)]

mod disks;
mod file;
mod framed;
mod frames;
mod group;
mod history;
mod image_file;
mod logged;
mod memory;
mod opening;
mod records;

pub use disks::Disk;
pub use file::{FileDisk, OpenFault};
pub use framed::Framed;
pub use frames::{Frame, frame_in};
pub use group::{Group, MAX_GROUP};
pub use image_file::put_mark;
pub use memory::MemoryDisk;
pub use opening::{MAX_IMAGE, open_image, settle};
pub use records::{append, append_group};
