// What holds units.
ghost use Rattle.std.specs.Prelude.{◌≡◌, ◌≤◌, ◌^◌, ◌++◌, [], ℕ, List, length, IfOk, OnOk};
ghost use Rattle.talk_rules.specs.Units.{UnitRules, takes, units_behind};

use adept_io::NoMemory;
use std::alloc::Global;

/// What holds units, each of which was taken behind those before it. It answers each, and it answers questions, which change
/// nothing, also where they try a unit.
pub trait Holder {
    // What is said where units are held.
    ghost rules: { UnitRules };

    // The state is the one behind these units.
    ghost holds: { Self → List (List ℕ) → Type 0 };

    /// No units.
    fn new(alloc: Global) -> Result<Self, NoMemory>
        ensures { IfOk result (λ holder. holds holder []) };

    /// Takes a unit behind the others, unless it is refused or finds no room: then all is as before. Answers whether it was
    /// taken.
    fn take_unit(&mut self, alloc: Global, unit: &[u8]) -> Result<bool, NoMemory>
        requires short { length unit.now ≤ 2 ^ 23 }
        ensures taken { (units : List (List ℕ)) → holds self.old units → IfOk result (λ taken. taken ≡ takes rules units unit.now) }
        ensures holds { (units : List (List ℕ)) → holds self.old units → IfOk result (λ taken. holds self.new (units_behind taken units unit.now)) };

    /// Takes a unit in the same way, and puts its answer behind a text.
    fn answer_unit(
        &mut self,
        alloc: Global,
        unit: &[u8],
        text: &mut Vec<u8>,
    ) -> Result<bool, NoMemory>
        requires short { length unit.now ≤ 2 ^ 23 }
        ensures taken { (units : List (List ℕ)) → holds self.old units → IfOk result (λ taken. taken ≡ takes rules units unit.now) }
        ensures holds { (units : List (List ℕ)) → holds self.old units → IfOk result (λ taken. holds self.new (units_behind taken units unit.now)) }
        ensures answer { (units : List (List ℕ)) → holds self.old units → OnOk result (text.new.items ≡ text.old.items ++ rules.answer units unit.now) };

    /// Puts the answer to a question behind a text. The units that are held are the same.
    fn answer_question(
        &mut self,
        alloc: Global,
        question: &[u8],
        text: &mut Vec<u8>,
    ) -> Result<(), NoMemory>
        requires short { length question.now ≤ 2 ^ 23 }
        ensures holds { (units : List (List ℕ)) → holds self.old units → OnOk result (holds self.new units) }
        ensures answer { (units : List (List ℕ)) → holds self.old units → OnOk result (text.new.items ≡ text.old.items ++ rules.asked units question.now) };

    /// Puts behind a text that all is well.
    fn answer_well(&self, alloc: Global, text: &mut Vec<u8>) -> Result<(), NoMemory>
        ensures { (units : List (List ℕ)) → holds self.now units → OnOk result (text.new.items ≡ text.old.items ++ rules.well (length units)) };

    /// Puts behind a text that a line is refused, and why.
    fn refuse(
        &self,
        alloc: Global,
        line: u64,
        why: &[u8],
        text: &mut Vec<u8>,
    ) -> Result<(), NoMemory>
        ensures { OnOk result (text.new.items ≡ text.old.items ++ rules.refusal line why.now) };
}
