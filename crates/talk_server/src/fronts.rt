// What an image begins with.
ghost use Rattle.std.specs.Prelude.{◌≡◌, bytes_eq};
ghost use Rattle.store_disk.specs.Opening.{with_gate};
ghost use Rattle.talk_rules.specs.Units.{header};
ghost use Rattle.talk_server.specs.Fronts.{IsFront};

use store_disk::{Frame, frame_in};
use talk_rules::header;

// A stop leaves no more of the header's record and the gate behind it.
const MAX_UNBEGUN: usize = 14;

/// What an image begins with.
#[derive(Clone, Copy, Debug, PartialEq, Eq)]
pub(crate) enum Front {
    /// No record, and no more bytes than a stop may leave of the first.
    Unbegun,
    /// The header's record.
    Header,
    /// Something else.
    Other,
}

// Whether a payload is the header.
fn is_header(payload: &[u8]) -> bool
    ensures { result ≡ bytes_eq payload.now header }
{
    payload == header()
}

// What an image begins with.
pub(crate) fn front_of(image: &[u8]) -> Front
    requires gate { with_gate image.now ≡ image.now }
    ensures { IsFront image.now result }
{
    match frame_in(image) {
        Frame::Damaged => Front::Other,
        Frame::Closed => if image.len() <= MAX_UNBEGUN {
            Front::Unbegun
        } else {
            Front::Other
        },
        Frame::Record(len) => if is_header(&image[5..5 + len]) {
            Front::Header
        } else {
            Front::Other
        },
    }
}
