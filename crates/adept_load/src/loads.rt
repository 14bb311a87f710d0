// The file.
ghost use Rattle.std.specs.Prelude.{◌≡◌, ◌++◌, ◌≤◌, ◌<◌, length, string_bytes, IfOk, OnOk};
ghost use Rattle.adept_load.specs.Load.{beginning, declaration, each_case, first_phase, continuation, head, last_phase, load_text, second_phase};

use crate::courses::{Course, put_first_lines, put_last_lines};
use crate::lines::put_create;
use adept_io::{Bytes, NoMemory};
use std::alloc::Global;
use std::fmt::Write;

// The types and the actors.
const HEAD: &str = "\
adept 1
type order
element total int
act enter
act pack
act send
write enter total
read pack total
end
type claim
act enquire
and s j
branch 0
act assess
branch 1
act visit
done
loop l e
act decide
done
act pay
end
actor w1
actor w2
actor w3
actor w4
actor w5
actor w6
actor w7
actor w8
actor boss
";

// Orders get two new versions and claims one, and the cases migrate.
const SECOND_PHASE: &str = "\
phase
boss install order
insert check after enter
end
boss install claim
sync assess visit
end
boss migrate order
boss migrate claim
boss install order
insert bill after pack
end
boss migrate order
";

/// A large process file: so many cases of two types, worked by eight workers, and changed by an engineer.
#[tactic(auto, using(crate::proofs::Lengths::load_text_is_short))]
pub fn load_file(alloc: Global, cases: u32) -> Result<Bytes, NoMemory>
    requires some { 1 ≤ cases }
    requires most { cases ≤ 4096 }
    ensures text { IfOk result (λ bytes. bytes ≡ load_text cases) }
    ensures size { IfOk result (λ bytes. length bytes < 4194304) }
{
    let mut text = String::new(alloc);
    put_file(&mut text, cases)?;
    Ok(Bytes::from_vec(text.into_bytes()))
}

#[tactic(auto, unfolding(crate::specs::Load::load_text))]
fn put_file(text: &mut String, cases: u32) -> Result<(), NoMemory>
    requires { 1 ≤ cases }
    ensures { OnOk result (string_bytes text.new ≡ string_bytes text.old ++ load_text cases) }
{
    put_head(text)?;
    put_declarations(text, cases)?;
    put_first_phase(text, cases)?;
    put_second_phase(text)?;
    put_last_phase(text, cases)
}

#[tactic(auto, unfolding(crate::specs::Load::head))]
fn put_head(text: &mut String) -> Result<(), NoMemory>
    ensures { OnOk result (string_bytes text.new ≡ string_bytes text.old ++ head) }
{
    text.push_str(HEAD)
}

fn put_declarations(text: &mut String, cases: u32) -> Result<(), NoMemory>
    requires { 1 ≤ cases }
    ensures { OnOk result (string_bytes text.new ≡ string_bytes text.old ++ each_case declaration cases) }
{
    for number in 1..=cases {
        put_declaration(text, number)?;
    }
    Ok(())
}

#[tactic(auto, unfolding(crate::specs::Load::declaration))]
fn put_declaration(text: &mut String, number: u32) -> Result<(), NoMemory>
    ensures { OnOk result (string_bytes text.new ≡ string_bytes text.old ++ declaration number) }
{
    let kind = if number % 2 == 1 { "order" } else { "claim" };
    writeln!(text, "case c{number} {kind}")
}

#[tactic(auto, unfolding(crate::specs::Load::first_phase))]
fn put_first_phase(text: &mut String, cases: u32) -> Result<(), NoMemory>
    requires { 1 ≤ cases }
    ensures { OnOk result (string_bytes text.new ≡ string_bytes text.old ++ first_phase cases) }
{
    text.push_str("phase\n")?;
    put_beginnings(text, cases)
}

fn put_beginnings(text: &mut String, cases: u32) -> Result<(), NoMemory>
    requires { 1 ≤ cases }
    ensures { OnOk result (string_bytes text.new ≡ string_bytes text.old ++ each_case beginning cases) }
{
    for number in 1..=cases {
        put_beginning(text, number)?;
    }
    Ok(())
}

#[tactic(auto, unfolding(crate::specs::Load::beginning))]
fn put_beginning(text: &mut String, number: u32) -> Result<(), NoMemory>
    requires { 1 ≤ number }
    ensures { OnOk result (string_bytes text.new ≡ string_bytes text.old ++ beginning number) }
{
    put_create(text, number)?;
    put_first_lines(text, number, Course::of(number))
}

#[tactic(auto, unfolding(crate::specs::Load::second_phase))]
fn put_second_phase(text: &mut String) -> Result<(), NoMemory>
    ensures { OnOk result (string_bytes text.new ≡ string_bytes text.old ++ second_phase) }
{
    text.push_str(SECOND_PHASE)
}

#[tactic(auto, unfolding(crate::specs::Load::last_phase))]
fn put_last_phase(text: &mut String, cases: u32) -> Result<(), NoMemory>
    requires { 1 ≤ cases }
    ensures { OnOk result (string_bytes text.new ≡ string_bytes text.old ++ last_phase cases) }
{
    text.push_str("phase\n")?;
    put_continuations(text, cases)
}

fn put_continuations(text: &mut String, cases: u32) -> Result<(), NoMemory>
    requires { 1 ≤ cases }
    ensures { OnOk result (string_bytes text.new ≡ string_bytes text.old ++ each_case continuation cases) }
{
    for number in 1..=cases {
        put_continuation(text, number)?;
    }
    Ok(())
}

#[tactic(auto, unfolding(crate::specs::Load::continuation))]
fn put_continuation(text: &mut String, number: u32) -> Result<(), NoMemory>
    requires { 1 ≤ number }
    ensures { OnOk result (string_bytes text.new ≡ string_bytes text.old ++ continuation number) }
{
    put_last_lines(text, number, Course::of(number))
}
