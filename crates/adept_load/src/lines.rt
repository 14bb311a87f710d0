// The lines of a case.
ghost use Rattle.std.specs.Prelude.{◌≡◌, ◌++◌, ◌≤◌, string_bytes, OnOk};
ghost use Rattle.adept_load.specs.Lines.{change_lines, create_line, activity_lines, end_line, entry_lines, start_line, worker};

use adept_io::NoMemory;
use std::fmt::Write;

// How many workers take the cases in turn.
const WORKERS: u32 = 8;

fn worker_of(number: u32) -> u32
    requires { 1 ≤ number }
    ensures { result ≡ worker number }
{
    (number - 1) % WORKERS + 1
}

/// The case is created.
#[tactic(auto, unfolding(crate::specs::Lines::line, crate::specs::Lines::create_line))]
pub fn put_create(text: &mut String, number: u32) -> Result<(), NoMemory>
    requires { 1 ≤ number }
    ensures { OnOk result (string_bytes text.new ≡ string_bytes text.old ++ create_line number) }
{
    let worker = worker_of(number);
    writeln!(text, "w{worker} create c{number}")
}

/// An activity is begun.
#[tactic(auto, unfolding(crate::specs::Lines::line, crate::specs::Lines::start_line))]
pub fn put_start(text: &mut String, number: u32, activity: &str) -> Result<(), NoMemory>
    requires { 1 ≤ number }
    ensures { OnOk result (string_bytes text.new ≡ string_bytes text.old ++ start_line number activity.now) }
{
    let worker = worker_of(number);
    writeln!(text, "w{worker} start c{number} {activity}")
}

/// An activity is ended.
#[tactic(auto, unfolding(crate::specs::Lines::line, crate::specs::Lines::end_line))]
pub fn put_end(text: &mut String, number: u32, activity: &str) -> Result<(), NoMemory>
    requires { 1 ≤ number }
    ensures { OnOk result (string_bytes text.new ≡ string_bytes text.old ++ end_line number activity.now) }
{
    let worker = worker_of(number);
    writeln!(text, "w{worker} end c{number} {activity}")
}

/// An activity is begun and ended.
#[tactic(auto, unfolding(crate::specs::Lines::activity_lines))]
pub fn put_activity(text: &mut String, number: u32, activity: &str) -> Result<(), NoMemory>
    requires { 1 ≤ number }
    ensures { OnOk result (string_bytes text.new ≡ string_bytes text.old ++ activity_lines number activity.now) }
{
    put_start(text, number, activity)?;
    put_end(text, number, activity)
}

/// An order is entered: its total is its number.
#[tactic(auto, unfolding(crate::specs::Lines::line, crate::specs::Lines::entry_lines, crate::specs::Lines::end_line))]
pub fn put_entry(text: &mut String, number: u32) -> Result<(), NoMemory>
    requires { 1 ≤ number }
    ensures { OnOk result (string_bytes text.new ≡ string_bytes text.old ++ entry_lines number) }
{
    put_start(text, number, "enter")?;
    let worker = worker_of(number);
    writeln!(text, "w{worker} end c{number} enter total={number}")
}

/// The case is changed by one operation.
#[tactic(auto, unfolding(crate::specs::Lines::line, crate::specs::Lines::change_lines))]
pub fn put_change(text: &mut String, number: u32, operation: &str) -> Result<(), NoMemory>
    requires { 1 ≤ number }
    ensures { OnOk result (string_bytes text.new ≡ string_bytes text.old ++ change_lines number operation.now) }
{
    let worker = worker_of(number);
    writeln!(text, "w{worker} change c{number}")?;
    writeln!(text, "{operation}\nend")
}
