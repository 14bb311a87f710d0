// Room for the journals of a run.
ghost use Rattle.std.specs.Prelude.{◌+◌, ◌<◌, ◌^◌, length, sum};

use adept_server::Rooms;
use file_model::File;
use script_run::CallCounts;
use std::alloc::Global;
use wsm_lists::NoMemory;
use wsm_sound::CaseId;

/// The room that the journals take where each line of the file makes its calls. So many cases has each type.
pub fn rooms_of(alloc: Global, file: &File, cases: &[u32]) -> Result<Rooms, NoMemory>
    requires { length cases.now + sum cases.now < 2 ^ 32 }
{
    let counts = CallCounts::of(alloc, file)?;
    let mut rooms = Rooms::none(alloc);
    for (type_no, count) in cases.iter().enumerate() {
        let type_no = type_no as u32;
        rooms.kinds.push(counts.of_kind(type_no))?;
        rooms
            .cases
            .push(case_rooms(alloc, &counts, type_no, *count)?)?;
    }
    Ok(rooms)
}

// Those of the cases of a type, by place.
fn case_rooms(
    alloc: Global,
    counts: &CallCounts,
    type_no: u32,
    count: u32,
) -> Result<Vec<usize>, NoMemory> {
    let mut rooms = Vec::with_capacity(alloc, count as usize)?;
    for place in 0..count {
        rooms.push(counts.of_case(CaseId { type_no, place }))?;
    }
    Ok(rooms)
}
