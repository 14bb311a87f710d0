// The items at the front of bytes, worked one after another.
ghost use Rattle.std.specs.Prelude.{◌≡◌, ◌⊎◌, ◌<◌, ◌≤◌, [], length, IfOk};
ghost use Rattle.turn_loop.specs.{Serving.Works, Talk.WhereBegun};

use crate::limits::MAX_ANSWERS;
use crate::responders::Responder;
use adept_io::NoMemory;
use store_disk::Group;

// Works the items at the front of the bytes, until all bytes are taken or the answers are many, and answers how many bytes
// were taken. Puts the answers behind the text, and the payloads of the accepted ones into the group.
pub(crate) fn work_items<E: Responder>(
    responder: &mut E,
    bytes: &[u8],
    text: &mut Vec<u8>,
    group: &mut Group,
) -> Result<usize, NoMemory>
    requires no_text { text.old.items ≡ [] }
    requires no_group { group.old ≡ [] }
    ensures within { IfOk result (λ n. n ≤ length bytes.now) }
    ensures some { IfOk result (λ n. 0 < length bytes.now → 0 < n) }
    ensures full { IfOk result (λ n. (n ≡ length bytes.now) ⊎ (MAX_ANSWERS < length text.new.items)) }
    ensures works { WhereBegun E.holds E.rules.ends responder.old (λ first ps begun. IfOk result (λ n. Works E.rules E.holds first ps begun bytes.now responder.new text.new.items group.new n)) }
{
    let mut done = 0;
    'items: while done < bytes.len() && text.len() <= MAX_ANSWERS {
        let (_, rest) = bytes.split_at(done);
        match responder.take(rest)? {
            None => return Ok(bytes.len()),
            Some(len) => {
                responder.work(text, group)?;
                done += len;
            }
        }
    }
    Ok(done)
}
