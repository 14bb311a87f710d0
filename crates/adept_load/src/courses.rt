// What becomes of the cases.
ghost use Rattle.std.specs.Prelude.{◌≡◌, ◌++◌, ◌≤◌, string_bytes, OnOk};
ghost use Rattle.adept_load.specs.Courses.{course_of, first_lines, last_lines, visit_lines};

use crate::lines::{put_activity, put_change, put_end, put_entry, put_start};
use adept_io::NoMemory;

/// What becomes of a case before the types change. The first five are orders, the others claims.
#[derive(Clone, Copy)]
pub enum Course {
    /// No activity is begun.
    Created,
    /// It is entered.
    Entered,
    /// It is entered, and is being packed.
    Packing,
    /// It is entered, packed and sent.
    Sent,
    /// It gets an activity of its own.
    Extended,
    /// It is enquired into.
    Enquired,
    /// It is enquired into, assessed, and then visited.
    Visited,
    /// It is enquired into, visited, and then assessed.
    Assessed,
    /// It is decided, and the decision is to be made again.
    Repeated,
    /// It gets a sync edge of its own.
    Linked,
}

// By the last digit of a case's number, from 0.
const COURSES: [Course; 10] = [
    Course::Enquired,
    Course::Created,
    Course::Visited,
    Course::Entered,
    Course::Assessed,
    Course::Packing,
    Course::Repeated,
    Course::Sent,
    Course::Linked,
    Course::Extended,
];

impl Course {
    /// The course of the case of a number.
    #[tactic(auto, unfolding(crate::specs::Courses::course_of))]
    pub fn of(number: u32) -> Course
        ensures { result ≡ course_of number }
    {
        COURSES[number as usize % 10]
    }
}

/// The lines of the first phase, behind the one that creates the case.
#[tactic(auto, unfolding(crate::specs::Courses::first_lines))]
pub fn put_first_lines(text: &mut String, number: u32, course: Course) -> Result<(), NoMemory>
    requires { 1 ≤ number }
    ensures { OnOk result (string_bytes text.new ≡ string_bytes text.old ++ first_lines course number) }
{
    match course {
        Course::Created => Ok(()),
        Course::Entered => put_entry(text, number),
        Course::Packing => {
            put_entry(text, number)?;
            put_start(text, number, "pack")
        }
        Course::Sent => {
            put_entry(text, number)?;
            put_activity(text, number, "pack")?;
            put_activity(text, number, "send")
        }
        Course::Extended => put_change(text, number, "insert extra after enter"),
        Course::Enquired => put_activity(text, number, "enquire"),
        Course::Visited => put_visit(text, number),
        Course::Assessed => {
            put_activity(text, number, "enquire")?;
            put_activity(text, number, "visit")?;
            put_activity(text, number, "assess")
        }
        Course::Repeated => {
            put_visit(text, number)?;
            put_activity(text, number, "decide")?;
            put_start(text, number, "e")?;
            put_end(text, number, "e choice 1")
        }
        Course::Linked => put_change(text, number, "sync visit assess"),
    }
}

// A claim is assessed, and then visited.
#[tactic(auto, unfolding(crate::specs::Courses::visit_lines))]
fn put_visit(text: &mut String, number: u32) -> Result<(), NoMemory>
    requires { 1 ≤ number }
    ensures { OnOk result (string_bytes text.new ≡ string_bytes text.old ++ visit_lines number) }
{
    put_activity(text, number, "enquire")?;
    put_activity(text, number, "assess")?;
    put_activity(text, number, "visit")
}

/// The lines of the last phase.
#[tactic(auto, unfolding(crate::specs::Courses::last_lines))]
pub fn put_last_lines(text: &mut String, number: u32, course: Course) -> Result<(), NoMemory>
    requires { 1 ≤ number }
    ensures { OnOk result (string_bytes text.new ≡ string_bytes text.old ++ last_lines course number) }
{
    match course {
        Course::Entered => put_activity(text, number, "check"),
        Course::Packing => put_end(text, number, "pack"),
        _ => Ok(()),
    }
}
