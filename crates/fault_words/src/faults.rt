// The table of faults and their words.
ghost use Rattle.std.specs.Prelude.{◌≡◌, [], ◌∷◌, ◌++◌, codes};
ghost use Rattle.fault_words.specs.{FaultWords.{said, number, node, element, limit_word, why_word, why_node, op_words, block_words, data_words, fault_words}, Shown.{shown_option, shown_words}};

use crate::words::{FaultWord, FaultWords};
use wsm_ops::{OpFault, OpWhy};
use wsm_schema::{BlockFault, DataFault, LimitKind};
use wsm_sound::Fault;

/// The words of a fault.
pub fn fault_words(fault: Fault) -> FaultWords
    ensures { shown_words result ≡ fault_words fault }
{
    match fault {
        Fault::Op(fault) => op_words(fault),
        Fault::Block(fault) => block_words(fault),
        Fault::Data(fault) => data_words(fault),
    }
}

// The operation's place in its list, counted from 0, and why it is refused.
fn op_words(fault: OpFault) -> FaultWords
    ensures { shown_words result ≡ op_words fault }
{
    FaultWords {
        first: FaultWord::Said(b"op"),
        second: Some(FaultWord::Number(fault.index)),
        third: Some(FaultWord::Said(why_word(fault.why))),
        fourth: why_node(fault.why),
    }
}

fn why_word(why: OpWhy) -> &'static [u8]
    ensures { result.now ≡ why_word why }
{
    match why {
        OpWhy::NoNode(_) => b"no-node",
        OpWhy::NodeThere(_) => b"node-there",
        OpWhy::WrongKind(_) => b"wrong-kind",
        OpWhy::SelfTarget(_) => b"self-target",
        OpWhy::NoSync => b"no-sync",
        OpWhy::SyncThere => b"sync-there",
        OpWhy::NoEdge => b"no-edge",
        OpWhy::EdgeThere => b"edge-there",
        OpWhy::ElementThere => b"element-there",
    }
}

fn why_node(why: OpWhy) -> Option<FaultWord>
    ensures { shown_option result ≡ why_node why }
{
    match why {
        OpWhy::NoNode(node)
        | OpWhy::NodeThere(node)
        | OpWhy::WrongKind(node)
        | OpWhy::SelfTarget(node) => Some(FaultWord::Node(node)),
        OpWhy::NoSync | OpWhy::SyncThere | OpWhy::NoEdge | OpWhy::EdgeThere | OpWhy::ElementThere =>
            None,
    }
}

fn block_words(fault: BlockFault) -> FaultWords
    ensures { shown_words result ≡ block_words fault }
{
    match fault {
        BlockFault::Limit(kind) => with_one(b"limit", FaultWord::Said(limit_word(kind))),
        BlockFault::Twice(node) => with_one(b"twice", FaultWord::Node(node)),
        BlockFault::FewBranches(split) => with_one(b"few-branches", FaultWord::Node(split)),
        BlockFault::CodeTwice(split, code) => with_code(b"code-twice", split, code),
        BlockFault::SyncEnd(source, target) => with_two(b"sync-end", source, target),
        BlockFault::SyncPlace(source, target) => with_two(b"sync-place", source, target),
        BlockFault::SyncLoop(source, target) => with_two(b"sync-loop", source, target),
        BlockFault::SyncCycle(source, target) => with_two(b"sync-cycle", source, target),
    }
}

fn limit_word(kind: LimitKind) -> &'static [u8]
    ensures { result.now ≡ limit_word kind }
{
    match kind {
        LimitKind::Nodes => b"nodes",
        LimitKind::Depth => b"depth",
        LimitKind::Syncs => b"syncs",
        LimitKind::Elements => b"elements",
        LimitKind::Reads => b"reads",
        LimitKind::Writes => b"writes",
    }
}

fn data_words(fault: DataFault) -> FaultWords
    ensures { shown_words result ≡ data_words fault }
{
    match fault {
        DataFault::Unknown(node, element) => with_element(b"unknown", node, element),
        DataFault::Missing(node, element) => with_element(b"missing", node, element),
        DataFault::ParallelWrite(first, second, element) => FaultWords {
            first: FaultWord::Said(b"parallel-write"),
            second: Some(FaultWord::Node(first)),
            third: Some(FaultWord::Node(second)),
            fourth: Some(FaultWord::Element(element)),
        },
    }
}

fn with_one(word: &'static [u8], second: FaultWord) -> FaultWords
    ensures { shown_words result ≡ said word.entry.now ∷ shown_option (Some second) }
{
    FaultWords {
        first: FaultWord::Said(word),
        second: Some(second),
        third: None,
        fourth: None,
    }
}

fn with_two(word: &'static [u8], first: u32, last: u32) -> FaultWords
    ensures { shown_words result ≡ said word.entry.now ∷ node first ∷ node last ∷ [] }
{
    FaultWords {
        first: FaultWord::Said(word),
        second: Some(FaultWord::Node(first)),
        third: Some(FaultWord::Node(last)),
        fourth: None,
    }
}

fn with_code(word: &'static [u8], split: u32, code: u16) -> FaultWords
    ensures { shown_words result ≡ said word.entry.now ∷ node split ∷ number code ∷ [] }
{
    FaultWords {
        first: FaultWord::Said(word),
        second: Some(FaultWord::Node(split)),
        third: Some(FaultWord::Number(code.into())),
        fourth: None,
    }
}

fn with_element(word: &'static [u8], at: u32, item: u32) -> FaultWords
    ensures { shown_words result ≡ said word.entry.now ∷ node at ∷ element item ∷ [] }
{
    FaultWords {
        first: FaultWord::Said(word),
        second: Some(FaultWord::Node(at)),
        third: Some(FaultWord::Element(item)),
        fourth: None,
    }
}
