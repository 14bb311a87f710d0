// What is held.
ghost use Rattle.std.specs.Prelude.{◌≡◌, [], IfOk};
ghost use Rattle.talk_state.specs.States.{Holds};

use adept_io::NoMemory;
use file_units::HeldFile;
use line_calls::Cells;
use std::alloc::Global;
use std::marker::Model;
use talk_rules::header;
use unit_run::UnitRun;

// An open gate and a length.
pub(crate) const FRAME: u64 = 5;

/// The file, the run of its lines, and the bytes of its units.
#[derive(Drop)]
pub struct TalkState {
    pub(crate) file: HeldFile,
    pub(crate) run: UnitRun,
    // The bytes of all units, one behind another.
    pub(crate) units: Vec<u8>,
    pub(crate) count: u64,
    // The last unit's bytes begin there, and these are the types and cases that it has called.
    pub(crate) last: usize,
    pub(crate) called: Option<Cells>,
    // The image is so long, up to the gate that ends it.
    pub(crate) long: u64,
    // Whether each unit was worked to its end. Where memory was lacking in between no more is taken or answered.
    pub(crate) is_whole: bool,
}

impl Model for TalkState {
    ghost use Rattle.std.specs.Coded.{codes};
    ghost use Rattle.std.specs.Prelude.{◌≡◌, true};
    ghost use Rattle.file_model.specs.contracts.states.Contents as states;
    ghost use Rattle.line_calls.specs.contracts.calls.Cells as calls;
    ghost use Rattle.script_run.specs.contracts.runs.Run as runs;
    ghost use Rattle.talk_state.specs.States.{IsSound, State};

    ghost Value = { State };

    ghost coded = { Prim.hlevel (codes, calls.the_row.coded, runs.the_row.coded, states.the_row.coded) };

    ghost view = { λ a. record {
      contents = a.file;
      placing = a.run;
      called = a.called;
      bytes = a.units.items;
      last = a.last;
      count = a.count;
      long = a.long;
      whole = a.is_whole;
    } };

    ghost invariant = { λ a. a.is_whole ≡ true → IsSound (record {
      contents = a.file;
      placing = a.run;
      called = a.called;
      bytes = a.units.items;
      last = a.last;
      count = a.count;
      long = a.long;
      whole = a.is_whole;
    }) };
}

impl TalkState {
    // No units.
    pub(crate) fn nothing(alloc: Global) -> Result<TalkState, NoMemory>
        ensures { IfOk result (λ state. Holds [] state) }
    {
        Ok(TalkState {
            file: HeldFile::new(alloc)?,
            run: UnitRun::new(alloc),
            units: Vec::new(alloc),
            count: 0,
            last: 0,
            called: None,
            long: FRAME + header().len() as u64,
            is_whole: true,
        })
    }
}
