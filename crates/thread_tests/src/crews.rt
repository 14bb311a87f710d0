// A file that nobody works leaves a run with all of its types and cases.
ghost use Rattle.std.specs.Prelude.{◌≤◌, length};

use crew_run::crew_run;
use process_text::read_workable;
use script_run::Run;
use std::alloc::Global;
use std::sync::Wait;
use std::test::Fail;
use std::thread::Threads;
use turn_cell::OpenGate;

const FILE: &[u8] = b"\
adept 1
type t
act A
end
type u
act B
end
case c t
case d u
case e t
";

// The proof of a test need not compute the file that literal bytes stand for.
fn run_of<R: Threads + Wait + Sync>(rt: &R, alloc: Global, bytes: &[u8]) -> Option<Run>
    requires { length bytes.now ≤ 1000 }
{
    let file = read_workable(alloc, bytes).ok()?;
    crew_run(rt, alloc, &file, &OpenGate).ok()
}

#[test]
fn three_cases_of_two_types(rt: HostRuntime) -> Result<(), Fail> {
    let run = run_of(&rt, rt.alloc(), FILE).ok_or("a run")?;
    assert_eq!(rt; run.kinds.len(), 2);
    assert_eq!(rt; run.cases.len(), 3);
    Ok(())
}
