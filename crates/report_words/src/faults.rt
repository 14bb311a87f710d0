// Why a schema, or a change of one, is refused.
ghost use Rattle.std.specs.Prelude.{◌≡◌};
ghost use Rattle.adept_io.specs.Written.{Gives};
ghost use Rattle.fault_words.specs.{FaultWords.{after_space, fault_text, word_text, words_text}, Shown.{shown_option, shown_word}};

use crate::words::{put_element, put_of_node, put_spaced};
use adept_io::{Sink, put_pieces};
use fault_words::{FaultWord, fault_words};
use file_model::File;
use wsm_sound::Fault;

/// The words of a fault of a schema, or of the operations that were to change one, each behind a space.
pub fn put_fault<K: Sink>(sink: &mut K, ok: bool, file: &File, fault: Fault) -> bool
    ensures { Gives K.written K.faults ok result sink.old sink.new (fault_text file.now.nodes file.now.elements fault) }
{
    let words = fault_words(fault);
    let ok = put_word(sink, ok, file, words.first);
    let ok = put_any(sink, ok, file, words.second);
    let ok = put_any(sink, ok, file, words.third);
    put_any(sink, ok, file, words.fourth)
}

fn put_word<K: Sink>(sink: &mut K, ok: bool, file: &File, word: FaultWord) -> bool
    ensures { Gives K.written K.faults ok result sink.old sink.new (after_space (word_text file.now.nodes file.now.elements (shown_word word))) }
{
    match word {
        FaultWord::Said(said) => put_pieces(sink, ok, &[b" ", said]),
        FaultWord::Number(number) => put_spaced(sink, ok, number),
        FaultWord::Node(node) => put_of_node(sink, ok, b" ", file, node),
        FaultWord::Element(element) => put_element(sink, ok, file, element),
    }
}

// A word, where there is one.
#[tactic(auto, using(adept_io::proofs::Sent::gives_nothing, fault_words::proofs::InOrder::one_word))]
fn put_any<K: Sink>(sink: &mut K, ok: bool, file: &File, word: Option<FaultWord>) -> bool
    ensures { Gives K.written K.faults ok result sink.old sink.new (words_text file.now.nodes file.now.elements (shown_option word)) }
{
    match word {
        None => ok,
        Some(word) => put_word(sink, ok, file, word),
    }
}
