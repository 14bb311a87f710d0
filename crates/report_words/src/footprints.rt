// The names of what operations change and use.
ghost use Rattle.adept_io.specs.Written.{Gives};
ghost use Rattle.report_words.specs.Names.{name_text};

use crate::words::{put_and_code, put_and_element, put_and_node, put_of_element, put_of_node};
use adept_io::Sink;
use file_model::File;
use wsm_foot::Name;

/// The name of something that operations change or use.
pub fn put_name<K: Sink>(sink: &mut K, ok: bool, file: &File, name: Name) -> bool
    ensures { Gives K.written K.faults ok result sink.old sink.new (name_text file.now name) }
{
    match name {
        Name::Node(node) => put_of_node(sink, ok, b"node ", file, node),
        Name::GapAfter(node) => put_of_node(sink, ok, b"gap-after ", file, node),
        Name::GapHead(split, code) => put_and_code(sink, ok, b"gap-head ", file, split, code),
        Name::Sync(source, target) => put_and_node(sink, ok, b"sync ", file, source, target),
        Name::Read(node, element) => put_and_element(sink, ok, b"read ", file, node, element),
        Name::Write(node, element) => put_and_element(sink, ok, b"write ", file, node, element),
        Name::Element(element) => put_of_element(sink, ok, b"element ", file, element),
        Name::Role(node) => put_of_node(sink, ok, b"role ", file, node),
    }
}
