// The work of a file over a disk.
ghost use Rattle.std.specs.{Prelude.{◌≡◌, ◌≢◌, ◌⊎◌, ◌≤◌, ◌^◌, IfErr, OnOk, IsErrOf}, Io.KnownBytes.Appends};
ghost use Rattle.adept_io.specs.{Counts.Rose, Written.AppendsPrefix};
ghost use Rattle.file_facts.specs.Facts.{IsWorkable};
ghost use Rattle.file_model.specs.Sizes.{IsBounded};
ghost use Rattle.report_text.specs.Report.{text};
ghost use Rattle.script_run.specs.Serial.{serial};
ghost use Rattle.store_calls.specs.Calls.{calls, payloads};
ghost use Rattle.store_disk.specs.{Disk.{LeavesOnly, Only}, Opening.HoldsAsBefore};
ghost use Rattle.store_keep.specs.{Keeping.{IsBegun, IsLeft, IsStored, KeepsBeginning}, Refusals.{IsJudgement, IsRefusal, Tells}};

use adept_io::Sink;
use file_model::File;
use report_text::write_run;
use script_run::serial_run;
use std::alloc::Global;
use store_calls::calls;
use store_disk::{Disk, MAX_IMAGE};
use store_keep::{KeepFault, keep};

/// Works a process file over a disk: stores those of its calls that the disk does not hold yet, and then writes the report
/// of its lines worked in order. Where it ends early it may be called again, over the disk as it is then.
pub fn keep_file<K: Sink, D: Disk>(
    alloc: Global,
    file: &File,
    sink: &mut K,
    disk: &mut D,
) -> Result<(), KeepFault>
    requires bounded { IsBounded file.now }
    requires workable { IsWorkable file.now }
    requires settled { Only (D.content disk.old) (D.may_leave disk.old) }
    ensures all { OnOk result (IsStored D.content D.may_leave disk.new (payloads file.now)) }
    ensures written { OnOk result (Appends (K.written sink.old) (K.written sink.new) (text file.now (serial file.now))) }
    ensures begun { OnOk result (IsBegun (payloads file.now) (D.content disk.old)) }
    ensures any_moment { KeepsBeginning D.content D.moment D.left_since (payloads file.now) disk.old disk.new }
    ensures refused { IfErr result (λ e. Tells (2 ^ 30) (calls file.now) (D.content disk.old) e) }
    ensures fits { OnOk result (Tells (2 ^ 30) (calls file.now) (D.content disk.old) KeepFault.Full → ⊥) }
    ensures left { IfErr result (λ e. IsJudgement e → IsLeft D.content D.may_leave disk.old disk.new) }
    ensures same_records { IfErr result (λ e. IsRefusal e → LeavesOnly D.moment D.left_since disk.old disk.new (HoldsAsBefore (D.may_leave disk.old))) }
    ensures rose { IsErrOf result KeepFault.Disk → Rose (D.faults disk.old) (D.faults disk.new) }
    ensures no_fault { OnOk result (D.faults disk.new ≡ D.faults disk.old) }
    ensures no_other_fault { IfErr result (λ e. e ≢ KeepFault.Disk → D.faults disk.new ≡ D.faults disk.old) }
    ensures unwritten { IsErrOf result KeepFault.Unwritten → IsStored D.content D.may_leave disk.new (payloads file.now) }
    ensures part { IsErrOf result KeepFault.Unwritten → AppendsPrefix (K.written sink.old) (K.written sink.new) (text file.now (serial file.now)) }
    ensures sink_failed { IsErrOf result KeepFault.Unwritten → Rose (K.faults sink.old) (K.faults sink.new) }
    ensures untouched { IfErr result (λ e. e ≢ KeepFault.Unwritten → sink.new ≡ sink.old) }
{
    keep_file_within(alloc, file, MAX_IMAGE, sink, disk)
}

/// The same in an image of at most so many bytes.
pub fn keep_file_within<K: Sink, D: Disk>(
    alloc: Global,
    file: &File,
    limit: u64,
    sink: &mut K,
    disk: &mut D,
) -> Result<(), KeepFault>
    requires bounded { IsBounded file.now }
    requires workable { IsWorkable file.now }
    requires limit { limit ≤ 2 ^ 30 }
    requires settled { Only (D.content disk.old) (D.may_leave disk.old) }
    ensures all { OnOk result (IsStored D.content D.may_leave disk.new (payloads file.now)) }
    ensures written { OnOk result (Appends (K.written sink.old) (K.written sink.new) (text file.now (serial file.now))) }
    ensures begun { OnOk result (IsBegun (payloads file.now) (D.content disk.old)) }
    ensures any_moment { KeepsBeginning D.content D.moment D.left_since (payloads file.now) disk.old disk.new }
    ensures refused { IfErr result (λ e. Tells limit (calls file.now) (D.content disk.old) e) }
    ensures fits { OnOk result (Tells limit (calls file.now) (D.content disk.old) KeepFault.Full → ⊥) }
    ensures left { IfErr result (λ e. IsJudgement e → IsLeft D.content D.may_leave disk.old disk.new) }
    ensures same_records { IfErr result (λ e. IsRefusal e → LeavesOnly D.moment D.left_since disk.old disk.new (HoldsAsBefore (D.may_leave disk.old))) }
    ensures rose { IsErrOf result KeepFault.Disk → Rose (D.faults disk.old) (D.faults disk.new) }
    ensures no_fault { OnOk result (D.faults disk.new ≡ D.faults disk.old) }
    ensures no_other_fault { IfErr result (λ e. e ≢ KeepFault.Disk → D.faults disk.new ≡ D.faults disk.old) }
    ensures unwritten { IsErrOf result KeepFault.Unwritten → IsStored D.content D.may_leave disk.new (payloads file.now) }
    ensures part { IsErrOf result KeepFault.Unwritten → AppendsPrefix (K.written sink.old) (K.written sink.new) (text file.now (serial file.now)) }
    ensures sink_failed { IsErrOf result KeepFault.Unwritten → Rose (K.faults sink.old) (K.faults sink.new) }
    ensures untouched { IfErr result (λ e. e ≢ KeepFault.Unwritten → sink.new ≡ sink.old) }
{
    let told = calls(alloc, file)?;
    keep(alloc, &told.calls, &told.ends, limit, disk)?;
    report(alloc, file, sink)
}

// Works the lines of a file in order, and writes the report.
fn report<K: Sink>(alloc: Global, file: &File, sink: &mut K) -> Result<(), KeepFault>
    requires bounded { IsBounded file.now }
    ensures written { OnOk result (Appends (K.written sink.old) (K.written sink.new) (text file.now (serial file.now))) }
    ensures causes { IfErr result (λ e. (e ≡ KeepFault.NoMemory) ⊎ (e ≡ KeepFault.Unwritten)) }
    ensures part { IsErrOf result KeepFault.Unwritten → AppendsPrefix (K.written sink.old) (K.written sink.new) (text file.now (serial file.now)) }
    ensures sink_failed { IsErrOf result KeepFault.Unwritten → Rose (K.faults sink.old) (K.faults sink.new) }
    ensures untouched { IfErr result (λ e. e ≢ KeepFault.Unwritten → sink.new ≡ sink.old) }
{
    let run = serial_run(alloc, file)?;
    match write_run(file, &run, sink) {
        Ok(()) => Ok(()),
        Err(_) => Err(KeepFault::Unwritten),
    }
}
