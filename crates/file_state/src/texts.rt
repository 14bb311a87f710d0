// The texts of refusals.
ghost use Rattle.std.specs.Prelude.{◌≡◌, ◌++◌, decimal, IfOk, OnOk};
ghost use Rattle.fault_words.specs.{FaultWords.{named, word_text, after_space, words_text, fault_text}, Shown.{shown_word, shown_option}};
ghost use Rattle.file_model.specs.RefusalTexts.{limit_text, text_of};

use adept_io::Bytes;
use fault_words::{FaultWord, fault_words};
use file_model::{FileLimit, Why};
use file_names::NameTable;
use itoa::Buffer;
use std::alloc::Global;
use std::marker::Model;
use wsm_lists::NoMemory;
use wsm_sound::Fault;

/// A text that grows by words.
#[derive(Drop)]
pub struct WordText {
    bytes: Vec<u8>,
}

impl Model for WordText {
    ghost use Rattle.std.specs.Prelude.{ℕ, List};

    ghost Value = { List ℕ };

    ghost view = { λ a. a.bytes.items };
}

impl WordText {
    fn of(alloc: Global, word: &[u8]) -> Result<WordText, NoMemory>
        ensures { IfOk result (λ text. text ≡ word.now) }
    {
        Ok(WordText {
            bytes: Vec::from_slice(alloc, word)?,
        })
    }

    fn into_bytes(self) -> Bytes
        ensures { result ≡ self }
    {
        Bytes::from_vec(self.bytes)
    }

    // One more word, behind a space.
    fn put(&mut self, word: &[u8]) -> Result<(), NoMemory>
        ensures { OnOk result (self.new ≡ self.old ++ after_space word.now) }
    {
        self.bytes.push(b' ')?;
        self.bytes.extend_from_slice(word)?;
        Ok(())
    }

    fn put_number(&mut self, number: u32) -> Result<(), NoMemory>
        ensures { OnOk result (self.new ≡ self.old ++ after_space (decimal number)) }
    {
        let mut buffer = Buffer::new();
        self.put(buffer.format(number).as_bytes())
    }

    // The name with a number, or the number where it has none.
    fn put_name(&mut self, names: &NameTable, number: u32) -> Result<(), NoMemory>
        ensures { OnOk result (self.new ≡ self.old ++ after_space (named names.now number)) }
    {
        match names.get(number) {
            Some(name) => self.put(name),
            None => self.put_number(number),
        }
    }

    fn put_word(
        &mut self,
        nodes: &NameTable,
        elements: &NameTable,
        word: FaultWord,
    ) -> Result<(), NoMemory>
        ensures { OnOk result (self.new ≡ self.old ++ after_space (word_text nodes.now elements.now (shown_word word))) }
    {
        match word {
            FaultWord::Said(said) => self.put(said),
            FaultWord::Number(number) => self.put_number(number),
            FaultWord::Node(node) => self.put_name(nodes, node),
            FaultWord::Element(element) => self.put_name(elements, element),
        }
    }

    // A word, where there is one.
    #[tactic(auto, using(crate::proofs::SpacedWords::one_word, crate::proofs::SpacedWords::no_word))]
    fn put_any(
        &mut self,
        nodes: &NameTable,
        elements: &NameTable,
        word: Option<FaultWord>,
    ) -> Result<(), NoMemory>
        ensures { OnOk result (self.new ≡ self.old ++ words_text nodes.now elements.now (shown_option word)) }
    {
        match word {
            None => Ok(()),
            Some(word) => self.put_word(nodes, elements, word),
        }
    }

    #[tactic(auto, using(crate::proofs::SpacedWords::four_words))]
    fn put_fault(
        &mut self,
        nodes: &NameTable,
        elements: &NameTable,
        fault: Fault,
    ) -> Result<(), NoMemory>
        ensures { OnOk result (self.new ≡ self.old ++ fault_text nodes.now elements.now fault) }
    {
        let words = fault_words(fault);
        self.put_word(nodes, elements, words.first)?;
        self.put_any(nodes, elements, words.second)?;
        self.put_any(nodes, elements, words.third)?;
        self.put_any(nodes, elements, words.fourth)
    }
}

fn limit_text(limit: FileLimit) -> &'static [u8]
    ensures { result.now ≡ limit_text limit }
{
    match limit {
        FileLimit::Name => b"limit name",
        FileLimit::Text => b"limit text",
        FileLimit::Types => b"limit types",
        FileLimit::Actors => b"limit actors",
        FileLimit::Cases => b"limit cases",
        FileLimit::Phases => b"limit phases",
        FileLimit::Lines => b"limit lines",
        FileLimit::Installs => b"limit installs",
        FileLimit::Ops => b"limit ops",
        FileLimit::Migrations => b"limit migrations",
        FileLimit::Roles => b"limit roles",
        FileLimit::Depth => b"limit depth",
    }
}

fn bytes_of(alloc: Global, text: &[u8]) -> Result<Bytes, NoMemory>
    ensures { IfOk result (λ bytes. bytes ≡ text.now) }
{
    Ok(Bytes::from_vec(Vec::from_slice(alloc, text)?))
}

fn unsound_text(
    alloc: Global,
    nodes: &NameTable,
    elements: &NameTable,
    fault: Fault,
) -> Result<Bytes, NoMemory>
    ensures { IfOk result (λ text. text ≡ text_of nodes.now elements.now (Why.Unsound fault)) }
{
    let mut text = WordText::of(alloc, b"unsound")?;
    text.put_fault(nodes, elements, fault)?;
    Ok(text.into_bytes())
}

/// The text of a refusal, over the names of nodes and elements.
pub fn text_of(
    alloc: Global,
    nodes: &NameTable,
    elements: &NameTable,
    why: Why,
) -> Result<Bytes, NoMemory>
    ensures { IfOk result (λ text. text ≡ text_of nodes.now elements.now why) }
{
    match why {
        Why::Header => bytes_of(alloc, b"header"),
        Why::Unended => bytes_of(alloc, b"unended"),
        Why::NotText => bytes_of(alloc, b"not-text"),
        Why::Form => bytes_of(alloc, b"form"),
        Why::Unknown => bytes_of(alloc, b"unknown"),
        Why::Twice => bytes_of(alloc, b"twice"),
        Why::Limit(limit) => bytes_of(alloc, limit_text(limit)),
        Why::Unsound(fault) => unsound_text(alloc, nodes, elements, fault),
    }
}
