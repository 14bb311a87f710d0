// Reads and writes of nodes and elements that the schema does not have.
ghost use Rattle.std.specs.{Prelude.{◌≡◌, [], None, true, IfSome, ◌==◌}, List.list_any};
ghost use Rattle.wsm_schema.specs.{Kinds.worked_on, Sound.{first_some, twice, nodes_of, is_worked_on_in}};
ghost use Rattle.wsm_data.specs.Unknowns.{unknown_in};

use wsm_schema::{DataFault, Flat, NodeKind};

/// The first read of a node that is not worked on, or of an element that is not listed.
pub fn unknown_read(flat: &Flat, reads: &[(u32, u32, bool)]) -> Option<DataFault>
    requires { twice [] (nodes_of flat.now.cards) ≡ None }
    ensures { result ≡ first_some (λ r. unknown_in flat.now r.0 r.1) reads.now }
{
    let mut last = None;
    for read in reads {
        let found = unknown(flat, last, read.0, read.1);
        if found.is_some() {
            return found;
        }
        last = Some(read.0);
    }
    None
}

/// The first write of a node that is not worked on, or to an element that is not listed.
pub fn unknown_write(flat: &Flat, writes: &[(u32, u32)]) -> Option<DataFault>
    requires { twice [] (nodes_of flat.now.cards) ≡ None }
    ensures { result ≡ first_some (λ w. unknown_in flat.now w.0 w.1) writes.now }
{
    let mut last = None;
    for write in writes {
        let found = unknown(flat, last, write.0, write.1);
        if found.is_some() {
            return found;
        }
        last = Some(write.0);
    }
    None
}

// Whether the node or the element is unknown, where the last node was not.
fn unknown(flat: &Flat, last: Option<u32>, node: u32, element: u32) -> Option<DataFault>
    requires distinct { twice [] (nodes_of flat.now.cards) ≡ None }
    requires last { IfSome last (λ n. is_worked_on_in flat.now.cards n ≡ true) }
    ensures { result ≡ unknown_in flat.now node element }
{
    if is_known(flat, last, node) && is_listed(flat, element) {
        None
    } else {
        Some(DataFault::Unknown(node, element))
    }
}

// Whether an actor starts and ends the node. The rows of one node follow one another, so it is most often the last one.
fn is_known(flat: &Flat, last: Option<u32>, node: u32) -> bool
    requires distinct { twice [] (nodes_of flat.now.cards) ≡ None }
    requires last { IfSome last (λ n. is_worked_on_in flat.now.cards n ≡ true) }
    ensures { result ≡ is_worked_on_in flat.now.cards node }
{
    match last {
        Some(known) => known == node || is_worked_on(flat, node),
        None => is_worked_on(flat, node),
    }
}

// Whether an actor starts and ends the node.
fn is_worked_on(flat: &Flat, node: u32) -> bool
    requires { twice [] (nodes_of flat.now.cards) ≡ None }
    ensures { result ≡ is_worked_on_in flat.now.cards node }
{
    match flat.card(node) {
        None => false,
        Some(card) => works(card.kind),
    }
}

fn works(kind: NodeKind) -> bool
    ensures { result ≡ worked_on kind }
{
    kind == NodeKind::Activity || kind == NodeKind::XorSplit || kind == NodeKind::LoopEnd
}

// Whether the element is one of the schema's.
fn is_listed(flat: &Flat, element: u32) -> bool
    ensures { result ≡ list_any (λ e. e.0 == element) flat.now.elements }
{
    flat.kind(element).is_some()
}
