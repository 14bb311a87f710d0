// The marks of nodes, and of those from which edges lead to a node: each that is not known is read, once.
ghost use Rattle.std.specs.Prelude.{◌≡◌, ◌≤◌, true, OnOk};
ghost use Rattle.wsm_adapt.specs.Border.{AllAmong, AllKnown, FewAmong, ReadsMore, SourcesAmong, SourcesKnown, SpendsAmong, end_node, is_known, own};
ghost use Rattle.wsm_schema.specs.Trail.{is_one_of};

use crate::known::Known;
use wsm_lists::NoMemory;
use wsm_rules::MarkReads;
use wsm_schema::{Card, End};

/// The marks of the nodes from which edges lead to the card's node.
pub fn read_card_sources<M: MarkReads>(
    marks: &mut M,
    card: &Card,
    known: &mut Known,
) -> Result<(), NoMemory>
    ensures more { OnOk result (ReadsMore (M.kept marks.old) known.old known.new) }
    ensures sources { OnOk result (SourcesKnown known.new card.now) }
    ensures same { M.kept marks.new ≡ M.kept marks.old }
    ensures rises { M.reads marks.old ≤ M.reads marks.new }
    ensures spent { OnOk result (SpendsAmong (λ all. SourcesAmong all card.now) (M.reads marks.old) known.old (M.reads marks.new) known.new) }
    ensures few { FewAmong (λ all. SourcesAmong all card.now) (M.reads marks.old) known.old (M.reads marks.new) }
{
    read_ends(marks, card.ins.as_slice(), known)?;
    read_nodes(marks, card.syncs_in.as_slice(), known)
}

fn read_ends<M: MarkReads>(marks: &mut M, ends: &[End], known: &mut Known) -> Result<(), NoMemory>
    ensures more { OnOk result (ReadsMore (M.kept marks.old) known.old known.new) }
    ensures sources { OnOk result (AllKnown known.new end_node ends.now) }
    ensures same { M.kept marks.new ≡ M.kept marks.old }
    ensures rises { M.reads marks.old ≤ M.reads marks.new }
    ensures spent { OnOk result (SpendsAmong (λ all. AllAmong all end_node ends.now) (M.reads marks.old) known.old (M.reads marks.new) known.new) }
    ensures few { FewAmong (λ all. AllAmong all end_node ends.now) (M.reads marks.old) known.old (M.reads marks.new) }
{
    for end in ends {
        read_unknown(marks, end.node, known)?;
    }
    Ok(())
}

/// The marks of these nodes.
pub fn read_nodes<M: MarkReads>(
    marks: &mut M,
    nodes: &[u32],
    known: &mut Known,
) -> Result<(), NoMemory>
    ensures more { OnOk result (ReadsMore (M.kept marks.old) known.old known.new) }
    ensures sources { OnOk result (AllKnown known.new own nodes.now) }
    ensures same { M.kept marks.new ≡ M.kept marks.old }
    ensures rises { M.reads marks.old ≤ M.reads marks.new }
    ensures spent { OnOk result (SpendsAmong (λ all. AllAmong all own nodes.now) (M.reads marks.old) known.old (M.reads marks.new) known.new) }
    ensures few { FewAmong (λ all. AllAmong all own nodes.now) (M.reads marks.old) known.old (M.reads marks.new) }
{
    for node in nodes {
        read_unknown(marks, *node, known)?;
    }
    Ok(())
}

/// The mark of a node, where it is not known.
pub fn read_unknown<M: MarkReads>(
    marks: &mut M,
    node: u32,
    known: &mut Known,
) -> Result<(), NoMemory>
    ensures more { OnOk result (ReadsMore (M.kept marks.old) known.old known.new) }
    ensures there { OnOk result (is_known known.new node ≡ true) }
    ensures same { M.kept marks.new ≡ M.kept marks.old }
    ensures rises { M.reads marks.old ≤ M.reads marks.new }
    ensures spent { OnOk result (SpendsAmong (λ all. is_one_of node all ≡ true) (M.reads marks.old) known.old (M.reads marks.new) known.new) }
    ensures few { FewAmong (λ all. is_one_of node all ≡ true) (M.reads marks.old) known.old (M.reads marks.new) }
{
    if known.has(node) {
        return Ok(());
    }
    let mark = marks.get(node);
    known.set(node, mark)
}
