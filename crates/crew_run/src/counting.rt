// How many cases of each type there are.
ghost use Rattle.std.specs.Prelude.{◌≡◌, ◌+◌, ◌<◌, ◌≤◌, ◌^◌, length, sum, IfOk};
ghost use Rattle.crew_run.specs.CaseCounts.{AreCounts};
ghost use Rattle.file_facts.specs.Facts.{IsWorkable};

use file_model::File;
use std::alloc::Global;
use turn_cell::NoMemory;

/// For each type of a file the number of its cases.
pub fn case_counts(alloc: Global, file: &File) -> Result<Vec<u32>, NoMemory>
    requires { IsWorkable file.now }
    ensures counts { IfOk result (λ counts. AreCounts file.now counts.items) }
    ensures few { IfOk result (λ counts. length counts.items + sum counts.items < 2 ^ 32) }
{
    let mut counts = vec![in alloc; 0; file.types.len()]?;
    for decl in file.cases.as_slice() {
        counts[decl.id.type_no as usize] += 1;
    }
    Ok(counts)
}
