// What answers items.
ghost use Rattle.std.specs.Prelude.{◌≡◌, ◌<◌, ◌≤◌, ◌^◌, ◌++◌, ◌∷◌, [], ℕ, List, Bool, true, false, length, IfOk, IfSome, OnOk};
ghost use Rattle.store_disk.specs.Image.{all_framed};
ghost use Rattle.turn_loop.specs.Talk.{Rules, Takes, WhereTaken, held_behind, payload_of, taken_of};

use adept_io::NoMemory;
use store_disk::Group;

/// What takes items one after another and answers each. Its state is that of the payloads of the accepted ones, and of the
/// bytes with which an item has begun.
pub trait Responder {
    // What is said to items.
    ghost rules: { Rules };

    // The state is the one in which the next item is the first of the talk or not, these payloads are held, and an item has
    // begun with these bytes.
    ghost holds: { Self → Bool → List (List ℕ) → List ℕ → Type 0 };

    /// Takes bytes of the item that has begun, up to its end, and answers how many, or None where it goes on behind all.
    fn take(&mut self, bytes: &[u8]) -> Result<Option<usize>, NoMemory>
        ensures within { IfOk result (λ end. IfSome end (λ n. n ≤ length bytes.now)) }
        ensures some { IfOk result (λ end. IfSome end (λ n. 0 < n)) }
        ensures takes { (first : Bool) (ps : List (List ℕ)) (begun : List ℕ) → holds self.old first ps begun → IfOk result (λ end. Takes rules.ends begun bytes.now end) }
        ensures holds { (first : Bool) (ps : List (List ℕ)) (begun : List ℕ) → holds self.old first ps begun → IfOk result (λ end. holds self.new first ps (begun ++ taken_of end bytes.now)) };

    /// Works the item that was taken: puts the answer behind the text, and the payload into the group where it is accepted.
    fn work(&mut self, text: &mut Vec<u8>, group: &mut Group) -> Result<(), NoMemory>
        ensures holds { WhereTaken holds rules.ends self.old (λ first ps item. OnOk result (holds self.new false (held_behind rules ps item) [])) }
        ensures answer { WhereTaken holds rules.ends self.old (λ first ps item. OnOk result (text.new.items ≡ text.old.items ++ rules.answer first ps item)) }
        ensures payload { WhereTaken holds rules.ends self.old (λ first ps item. OnOk result (group.new ≡ group.old ++ payload_of rules ps item)) };

    /// What is said to a rest behind which there are no more bytes.
    fn close(&mut self, text: &mut Vec<u8>) -> Result<(), NoMemory>
        ensures { (first : Bool) (ps : List (List ℕ)) (rest : List ℕ) → holds self.old first ps rest → OnOk result (text.new.items ≡ text.old.items ++ rules.ending ps rest) };

    // An accepted item finds room on the disk.
    ghost fits: { (ps : List (List ℕ)) (item : List ℕ) → rules.accepts ps item ≡ true → length (all_framed (ps ++ item ∷ [])) < 2 ^ 30 };
}
