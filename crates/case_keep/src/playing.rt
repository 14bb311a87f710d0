// The work of a process file over a disk without bytes.
ghost use Rattle.std.specs.{Prelude.{◌≡◌, ◌≢◌, ◌≤◌, ◌^◌, ◌⊎◌, [], IfErr, OnOk, IsErrOf}, Io.KnownBytes.{Appends, IsAtEnd}};
ghost use Rattle.adept_io.specs.{Counts.Rose, Written.AppendsPrefix};
ghost use Rattle.case_keep.specs.Playing.{EndsUnplayed, HoldsBeginningOf, HoldsRun, IsPlayFault, IsPlayStatus, IsReadStatus, IsUnreadStatus, IsWorkStatus, OfFile, Reports, Stores};
ghost use Rattle.file_facts.specs.Facts.{IsWorkable};
ghost use Rattle.file_model.specs.Sizes.{IsBounded};
ghost use Rattle.report_text.specs.Report.{text};
ghost use Rattle.script_run.specs.Serial.{serial};
ghost use Rattle.store_calls.specs.Calls.{calls, payloads};
ghost use Rattle.store_disk.specs.Disk.{IsSettled, LeavesOnly};
ghost use Rattle.store_keep.specs.Keeping.{HoldsBeginning, IsStored};
ghost use Rattle.store_room.specs.Room.{Overflows};

use crate::keeping::keep_file_within;
use crate::reading::read_process;
use crate::storing::store_over;
use crate::unkept::keep_status;
use adept_io::{Sink, Source};
use file_model::File;
use std::alloc::Global;
use store_disk::{Disk, MAX_IMAGE};
use store_keep::KeepFault;

/// How the work of a process file over a disk without bytes ends.
#[derive(Drop)]
pub struct StoreOutcome<D: Disk + Drop> {
    /// 0: done; 1: the file is refused; 3: reading failed; 4: writing failed; 5: there was not enough memory; 6: the input
    /// is too long; 7: the disk failed; 8: no call of the disk failed, and the store would pass its limit, 1,073,741,824 bytes.
    pub status: u8,
    /// The disk, as the work left it.
    pub disk: D,
}

/// Reads a process file, makes its calls on a store that is opened on a disk without bytes, those of each phase in groups, opens
/// the disk again, and writes the report of the calls that it holds. The disk is left alone until the file is read, and nothing is written before the
/// disk was opened again.
pub fn store_play<S: Source, K: Sink, D: Disk + Drop>(
    alloc: Global,
    source: &mut S,
    sink: &mut K,
    disk: D,
) -> StoreOutcome<D>
    requires { IsSettled D.content D.may_leave disk [] }
    ensures statuses { IsPlayStatus result.status }
    ensures unread { IsUnreadStatus result.status → EndsUnplayed S.left S.faults source.old source.new disk result }
    ensures whole { IsReadStatus result.status → IsAtEnd (S.left source.new) }
    ensures report { IsReadStatus result.status → OfFile (S.left source.old) (λ f. Reports K.written K.faults f sink.old sink.new result.status) }
    ensures stored { IsReadStatus result.status → OfFile (S.left source.old) (λ f. Stores D.content D.may_leave D.faults (2 ^ 30) f disk result) }
    ensures run { (result.status ≡ 0) ⊎ (result.status ≡ 4) → OfFile (S.left source.old) (λ f. HoldsRun D.content D.may_leave f result.disk) }
    ensures steady { result.status ≢ 7 → D.faults result.disk ≡ D.faults disk }
    ensures untouched { result.status ≢ 0 → result.status ≢ 4 → sink.new ≡ sink.old }
    ensures any_moment { LeavesOnly D.moment D.left_since disk result.disk (HoldsBeginningOf (S.left source.old)) }
{
    store_play_within(alloc, source, sink, disk, MAX_IMAGE)
}

/// The same in an image of at most so many bytes.
pub fn store_play_within<S: Source, K: Sink, D: Disk + Drop>(
    alloc: Global,
    source: &mut S,
    sink: &mut K,
    disk: D,
    limit: u64,
) -> StoreOutcome<D>
    requires settled { IsSettled D.content D.may_leave disk [] }
    requires limit { limit ≤ 2 ^ 30 }
    ensures statuses { IsPlayStatus result.status }
    ensures unread { IsUnreadStatus result.status → EndsUnplayed S.left S.faults source.old source.new disk result }
    ensures whole { IsReadStatus result.status → IsAtEnd (S.left source.new) }
    ensures report { IsReadStatus result.status → OfFile (S.left source.old) (λ f. Reports K.written K.faults f sink.old sink.new result.status) }
    ensures stored { IsReadStatus result.status → OfFile (S.left source.old) (λ f. Stores D.content D.may_leave D.faults limit f disk result) }
    ensures run { (result.status ≡ 0) ⊎ (result.status ≡ 4) → OfFile (S.left source.old) (λ f. HoldsRun D.content D.may_leave f result.disk) }
    ensures steady { result.status ≢ 7 → D.faults result.disk ≡ D.faults disk }
    ensures untouched { result.status ≢ 0 → result.status ≢ 4 → sink.new ≡ sink.old }
    ensures any_moment { LeavesOnly D.moment D.left_since disk result.disk (HoldsBeginningOf (S.left source.old)) }
{
    match read_process(alloc, source) {
        Ok(file) => play_over(alloc, &file, limit, sink, disk),
        Err(why) => StoreOutcome {
            status: why.status(),
            disk,
        },
    }
}

// The work of a file that was read.
fn play_over<K: Sink, D: Disk + Drop>(
    alloc: Global,
    file: &File,
    limit: u64,
    sink: &mut K,
    disk: D,
) -> StoreOutcome<D>
    requires bounded { IsBounded file.now }
    requires workable { IsWorkable file.now }
    requires limit { limit ≤ 2 ^ 30 }
    requires settled { IsSettled D.content D.may_leave disk [] }
    ensures statuses { IsWorkStatus result.status }
    ensures report { Reports K.written K.faults file.now sink.old sink.new result.status }
    ensures stored { Stores D.content D.may_leave D.faults limit file.now disk result }
    ensures run { (result.status ≡ 0) ⊎ (result.status ≡ 4) → HoldsRun D.content D.may_leave file.now result.disk }
    ensures steady { result.status ≢ 7 → D.faults result.disk ≡ D.faults disk }
    ensures any_moment { LeavesOnly D.moment D.left_since disk result.disk (HoldsBeginning (payloads file.now) []) }
{
    let (disk, played) = play_file(alloc, file, limit, sink, disk);
    match played {
        Ok(()) => StoreOutcome { status: 0, disk },
        Err(fault) => StoreOutcome {
            status: keep_status(fault),
            disk,
        },
    }
}

// Stores the calls of a file, opens the disk again, and writes the report of what it holds. With the disk.
fn play_file<K: Sink, D: Disk + Drop>(
    alloc: Global,
    file: &File,
    limit: u64,
    sink: &mut K,
    disk: D,
) -> (D, Result<(), KeepFault>)
    requires bounded { IsBounded file.now }
    requires workable { IsWorkable file.now }
    requires limit { limit ≤ 2 ^ 30 }
    requires settled { IsSettled D.content D.may_leave disk [] }
    ensures all { OnOk result.1 (IsStored D.content D.may_leave result.0 (payloads file.now)) }
    ensures run { OnOk result.1 (HoldsRun D.content D.may_leave file.now result.0) }
    ensures fits { OnOk result.1 (Overflows limit 0 (calls file.now) → ⊥) }
    ensures written { OnOk result.1 (Appends (K.written sink.old) (K.written sink.new) (text file.now (serial file.now))) }
    ensures causes { IfErr result.1 (λ e. IsPlayFault e) }
    ensures full { IsErrOf result.1 KeepFault.Full → Overflows limit 0 (calls file.now) }
    ensures rose { IsErrOf result.1 KeepFault.Disk → Rose (D.faults disk) (D.faults result.0) }
    ensures no_fault { OnOk result.1 (D.faults result.0 ≡ D.faults disk) }
    ensures no_other_fault { IfErr result.1 (λ e. e ≢ KeepFault.Disk → D.faults result.0 ≡ D.faults disk) }
    ensures unwritten { IsErrOf result.1 KeepFault.Unwritten → IsStored D.content D.may_leave result.0 (payloads file.now) }
    ensures run_unwritten { IsErrOf result.1 KeepFault.Unwritten → HoldsRun D.content D.may_leave file.now result.0 }
    ensures fits_unwritten { IsErrOf result.1 KeepFault.Unwritten → Overflows limit 0 (calls file.now) → ⊥ }
    ensures part { IsErrOf result.1 KeepFault.Unwritten → AppendsPrefix (K.written sink.old) (K.written sink.new) (text file.now (serial file.now)) }
    ensures sink_failed { IsErrOf result.1 KeepFault.Unwritten → Rose (K.faults sink.old) (K.faults sink.new) }
    ensures untouched { IfErr result.1 (λ e. e ≢ KeepFault.Unwritten → sink.new ≡ sink.old) }
    ensures any_moment { LeavesOnly D.moment D.left_since disk result.0 (HoldsBeginning (payloads file.now) []) }
{
    let (disk, stored) = store_over(alloc, file, limit, disk);
    match stored {
        Ok(()) => {
            let mut disk = disk;
            let reported = keep_file_within(alloc, file, limit, sink, &mut disk);
            (disk, reported)
        }
        Err(fault) => (disk, Err(fault)),
    }
}
