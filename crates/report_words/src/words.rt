// The words of a report.
ghost use Rattle.std.specs.Prelude.{◌≡◌, ◌++◌, codes, decimal};
ghost use Rattle.adept_io.specs.Written.{Gives};
ghost use Rattle.report_words.specs.Words.{caller_text, element_is, element_text, letter, listed_element, node_and_code, node_and_element, node_and_node, node_text, node_then, role_text, type_text};

use adept_io::{Sink, put, put_pieces};
use file_limits::FIRST_NAMED_ROLE;
use file_model::File;
use itoa::Buffer;
use wsm_schema::State;

/// The first line of a report, which tells the format.
pub fn put_format<K: Sink>(sink: &mut K, ok: bool, format: u32) -> bool
    ensures { Gives K.written K.faults ok result sink.old sink.new (codes "adept report " ++ (decimal format ++ codes "\n")) }
{
    let mut number = Buffer::new();
    put_pieces(
        sink,
        ok,
        &[b"adept report ", number.format(format).as_bytes(), b"\n"],
    )
}

/// The name of a node, or its number where the file does not name it.
pub fn node_word<'a>(file: &'a File, node: u32, buffer: &'a mut Buffer) -> &'a [u8]
    ensures { result.now ≡ node_text file.now node }
{
    match file.nodes.get(node as usize) {
        Some(name) => name.bytes(),
        None => buffer.format(node).as_bytes(),
    }
}

/// The name of an element, or its number where the file does not name it.
pub fn element_word<'a>(file: &'a File, element: u32, buffer: &'a mut Buffer) -> &'a [u8]
    ensures { result.now ≡ element_text file.now element }
{
    match file.elements.get(element as usize) {
        Some(name) => name.bytes(),
        None => buffer.format(element).as_bytes(),
    }
}

/// The name of a type, or its number where the file has no such type.
pub fn type_word<'a>(file: &'a File, type_no: u32, buffer: &'a mut Buffer) -> &'a [u8]
    ensures { result.now ≡ type_text file.now type_no }
{
    match file.types.get(type_no as usize) {
        Some(decl) => decl.name.bytes(),
        None => buffer.format(type_no).as_bytes(),
    }
}

/// The name of a caller: `-` for the program itself, or an actor's. Where the file has no such actor it is the number.
pub fn caller_word<'a>(file: &'a File, caller: u32, buffer: &'a mut Buffer) -> &'a [u8]
    ensures { result.now ≡ caller_text file.now caller }
{
    if caller == 0 {
        return b"-";
    }
    match file.actors.get(caller as usize - 1) {
        Some(decl) => decl.name.bytes(),
        None => buffer.format(caller).as_bytes(),
    }
}

/// The name of a role, or its number where it has none.
pub fn role_word<'a>(file: &'a File, role: u32, buffer: &'a mut Buffer) -> &'a [u8]
    ensures { result.now ≡ role_text file.now role }
{
    if role < FIRST_NAMED_ROLE {
        return buffer.format(role).as_bytes();
    }
    match file.roles.get((role - FIRST_NAMED_ROLE) as usize) {
        Some(name) => name.bytes(),
        None => buffer.format(role).as_bytes(),
    }
}

/// The letter of a state.
pub fn letter(state: State) -> &'static [u8]
    ensures { result.now ≡ letter state }
{
    match state {
        State::NotActivated => b"N",
        State::Activated => b"A",
        State::Running => b"R",
        State::Completed => b"C",
        State::Skipped => b"S",
    }
}

/// A number behind a space.
pub fn put_spaced<K: Sink>(sink: &mut K, ok: bool, number: u32) -> bool
    ensures { Gives K.written K.faults ok result sink.old sink.new (codes " " ++ decimal number) }
{
    let mut buffer = Buffer::new();
    put_pieces(sink, ok, &[b" ", buffer.format(number).as_bytes()])
}

/// A node behind a space, and the mark that stands behind it.
pub fn put_node<K: Sink>(
    sink: &mut K,
    ok: bool,
    file: &File,
    node: u32,
    mark: &'static [u8],
) -> bool
    ensures { Gives K.written K.faults ok result sink.old sink.new (node_then file.now node mark.now) }
{
    let mut buffer = Buffer::new();
    put_pieces(sink, ok, &[b" ", node_word(file, node, &mut buffer), mark])
}

/// An element behind a space.
pub fn put_element<K: Sink>(sink: &mut K, ok: bool, file: &File, element: u32) -> bool
    ensures { Gives K.written K.faults ok result sink.old sink.new (listed_element file.now element) }
{
    put_of_element(sink, ok, b" ", file, element)
}

/// An element, and what is said of it before it.
pub fn put_of_element<K: Sink>(
    sink: &mut K,
    ok: bool,
    before: &'static [u8],
    file: &File,
    element: u32,
) -> bool
    ensures { Gives K.written K.faults ok result sink.old sink.new (before.now ++ element_text file.now element) }
{
    let mut buffer = Buffer::new();
    put_pieces(
        sink,
        ok,
        &[before, element_word(file, element, &mut buffer)],
    )
}

/// An element behind a space, and the sign behind which its value stands.
pub fn put_element_is<K: Sink>(sink: &mut K, ok: bool, file: &File, element: u32) -> bool
    ensures { Gives K.written K.faults ok result sink.old sink.new (element_is file.now element) }
{
    let mut buffer = Buffer::new();
    put_pieces(
        sink,
        ok,
        &[b" ", element_word(file, element, &mut buffer), b"="],
    )
}

/// A node, and what is said of it before it.
pub fn put_of_node<K: Sink>(
    sink: &mut K,
    ok: bool,
    before: &'static [u8],
    file: &File,
    node: u32,
) -> bool
    ensures { Gives K.written K.faults ok result sink.old sink.new (before.now ++ node_text file.now node) }
{
    let mut buffer = Buffer::new();
    put_pieces(sink, ok, &[before, node_word(file, node, &mut buffer)])
}

/// Two nodes, and what is said of them before them.
#[tactic(auto, using(adept_io::proofs::Sent::gives_then))]
pub fn put_and_node<K: Sink>(
    sink: &mut K,
    ok: bool,
    before: &'static [u8],
    file: &File,
    node: u32,
    other: u32,
) -> bool
    ensures { Gives K.written K.faults ok result sink.old sink.new (before.now ++ node_and_node file.now node other) }
{
    let ok = put(sink, ok, before);
    put_nodes(sink, ok, file, node, other)
}

#[tactic(auto, using(adept_io::proofs::Sent::gives_then))]
fn put_nodes<K: Sink>(sink: &mut K, ok: bool, file: &File, node: u32, other: u32) -> bool
    ensures { Gives K.written K.faults ok result sink.old sink.new (node_and_node file.now node other) }
{
    let mut buffer = Buffer::new();
    let ok = put(sink, ok, node_word(file, node, &mut buffer));
    put_of_node(sink, ok, b" ", file, other)
}

/// A type, and what stands before it.
pub fn put_type<K: Sink>(
    sink: &mut K,
    ok: bool,
    before: &'static [u8],
    file: &File,
    type_no: u32,
) -> bool
    ensures { Gives K.written K.faults ok result sink.old sink.new (before.now ++ type_text file.now type_no) }
{
    let mut buffer = Buffer::new();
    put_pieces(sink, ok, &[before, type_word(file, type_no, &mut buffer)])
}

/// A node and an element, and what is said of them before them.
#[tactic(auto, using(adept_io::proofs::Sent::gives_then))]
pub fn put_and_element<K: Sink>(
    sink: &mut K,
    ok: bool,
    before: &'static [u8],
    file: &File,
    node: u32,
    element: u32,
) -> bool
    ensures { Gives K.written K.faults ok result sink.old sink.new (before.now ++ node_and_element file.now node element) }
{
    let ok = put(sink, ok, before);
    put_node_element(sink, ok, file, node, element)
}

#[tactic(auto, using(adept_io::proofs::Sent::gives_then))]
fn put_node_element<K: Sink>(sink: &mut K, ok: bool, file: &File, node: u32, element: u32) -> bool
    ensures { Gives K.written K.faults ok result sink.old sink.new (node_and_element file.now node element) }
{
    let mut buffer = Buffer::new();
    let ok = put(sink, ok, node_word(file, node, &mut buffer));
    put_element(sink, ok, file, element)
}

/// A node and the code of one of its branches, and what is said of them before them.
#[tactic(auto, using(adept_io::proofs::Sent::gives_then))]
pub fn put_and_code<K: Sink>(
    sink: &mut K,
    ok: bool,
    before: &'static [u8],
    file: &File,
    node: u32,
    code: u16,
) -> bool
    ensures { Gives K.written K.faults ok result sink.old sink.new (before.now ++ node_and_code file.now node code) }
{
    let ok = put(sink, ok, before);
    put_node_code(sink, ok, file, node, code)
}

#[tactic(auto, using(adept_io::proofs::Sent::gives_then))]
fn put_node_code<K: Sink>(sink: &mut K, ok: bool, file: &File, node: u32, code: u16) -> bool
    ensures { Gives K.written K.faults ok result sink.old sink.new (node_and_code file.now node code) }
{
    let mut buffer = Buffer::new();
    let ok = put(sink, ok, node_word(file, node, &mut buffer));
    put_code(sink, ok, code)
}

fn put_code<K: Sink>(sink: &mut K, ok: bool, code: u16) -> bool
    ensures { Gives K.written K.faults ok result sink.old sink.new (codes " " ++ decimal code) }
{
    let mut number = Buffer::new();
    put_pieces(sink, ok, &[b" ", number.format(code).as_bytes()])
}
