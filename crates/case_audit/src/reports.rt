// A report, judged.
ghost use Rattle.std.specs.Prelude.{◌≤◌, length, IfOk};
ghost use Rattle.case_audit.specs.Common.{CanAudit, IsJudged, IsRead, IsVerdict};

use crate::asked::asked_phases;
use crate::kinds::judge_kinds;
use crate::pieces::{Piece, follow};
use crate::sections::judge_cases;
use file_model::File;
use std::alloc::Global;
use std::thread::Threads;
use text_follower::Follower;
use wsm_lists::NoMemory;

/// Whether a legal run of a file has a report.
#[derive(Clone, Copy, Debug, PartialEq, Eq)]
pub enum Verdict {
    /// One has.
    Legal,
    /// None has; this line, from 1, is the first with which the report of none goes on.
    Wrong { line: u32 },
}

/// Judges the report of a file, in as many threads as serve.
pub fn audit<R: Threads + Sync>(
    rt: &R,
    alloc: Global,
    file: &File,
    report: &[u8],
) -> Result<Verdict, NoMemory>
    requires file { IsRead file.now }
    requires length { length report.now ≤ 268435456 }
    ensures { IfOk result (IsVerdict file.now report.now) }
{
    let mut follower = Follower::of(report, 0);
    let stands = judge_report(rt, alloc, file, &mut follower)?;
    if stands {
        return Ok(Verdict::Legal);
    }
    Ok(Verdict::Wrong {
        line: follower.lines() as u32 + 1,
    })
}

// Whether all lines stand there, and nothing behind them.
fn judge_report<R: Threads + Sync>(
    rt: &R,
    alloc: Global,
    file: &File,
    report: &mut Follower<'_>,
) -> Result<bool, NoMemory>
    requires file { CanAudit file.now }
    ensures { IfOk result (IsJudged file.now report.old report.new) }
{
    if !follow(alloc, file, Piece::FirstLine, report)? {
        return Ok(false);
    }
    let Some(kinds) = judge_kinds(alloc, file, report)? else {
        return Ok(false);
    };
    let phases = asked_phases(alloc, file, kinds.as_slice())?;
    let Some(cases) = judge_cases(rt, alloc, file, phases.as_slice(), report)? else {
        return Ok(false);
    };
    if !follow(alloc, file, Piece::Totals(cases.as_slice()), report)? {
        return Ok(false);
    }
    Ok(report.rest().is_empty())
}
