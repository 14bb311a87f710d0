// What answers the items of a talk.
ghost use Rattle.std.specs.Prelude.{◌≡◌, ◌≤◌, ◌++◌, ◌∷◌, [], true, length, IfOk, OnOk, if◌then◌else◌};
ghost use Rattle.talk_items.specs.{Items.kind, declared.limits.TheConstants.MAX_ITEM};
ghost use Rattle.talk_rules.specs.Units.{units_behind};
ghost use Rattle.talk_server.specs.{Serving.WhereServed, Talks.{accepts, answer_by, item_answer, next_refused, units_in}};

use adept_io::NoMemory;
use std::alloc::Global;
use store_disk::Group;
use talk_intake::Intake;
use talk_items::ItemKind;
use talk_rules::Holder;
use turn_loop::Responder;

/// What answers the items of a talk over the units that are held.
#[derive(Drop)]
pub(crate) struct Server<H> {
    alloc: Global,
    state: H,
    item: Intake,
    is_first: bool,
}

impl<H: Holder> Server<H> {
    // No item has come yet.
    pub(crate) fn new(alloc: Global, state: H) -> Server<H>
        ensures state { result.state ≡ state }
        ensures item { result.item ≡ [] }
        ensures first { result.is_first ≡ true }
    {
        Server {
            alloc,
            state,
            item: Intake::new(alloc),
            is_first: true,
        }
    }

    // Answers the item that was taken, and tells whether it was accepted.
    fn answer(&mut self, text: &mut Vec<u8>) -> Result<bool, NoMemory>
        ensures accepted { WhereServed H.holds self.old.state self.old.item self.old.is_first (λ first ps item. IfOk result (λ accepted. accepted ≡ accepts H.rules ps item)) }
        ensures holds { WhereServed H.holds self.old.state self.old.item self.old.is_first (λ first ps item. IfOk result (λ accepted. H.holds self.new.state (units_behind accepted (units_in ps) item))) }
        ensures answer { WhereServed H.holds self.old.state self.old.item self.old.is_first (λ first ps item. OnOk result (text.new.items ≡ text.old.items ++ item_answer H.rules first ps item)) }
        ensures short { IfOk result (λ accepted. accepted ≡ true → length self.new.item ≤ MAX_ITEM) }
        ensures same_item { self.new.item ≡ self.old.item }
    {
        if self.item.is_too_long() {
            self.refuse_next(text, b"limit bytes")?;
            return Ok(false);
        }
        match self.item.kind() {
            ItemKind::Unit => self.state.answer_unit(self.alloc, self.item.bytes(), text),
            ItemKind::Question => {
                self.state
                    .answer_question(self.alloc, self.item.bytes(), text)?;
                Ok(false)
            }
            ItemKind::Header => {
                self.answer_header(text)?;
                Ok(false)
            }
        }
    }

    // Puts the item into a group, where it was accepted.
    fn put(&self, accepted: bool, group: &mut Group) -> Result<(), NoMemory>
        requires { accepted ≡ true → length self.now.item ≤ MAX_ITEM }
        ensures { OnOk result (group.new ≡ group.old ++ (if accepted then self.now.item ∷ [] else [])) }
    {
        if !accepted {
            return Ok(());
        }
        group.push(self.item.bytes())
    }

    // Answers a header line.
    fn answer_header(&self, text: &mut Vec<u8>) -> Result<(), NoMemory>
        ensures { WhereServed H.holds self.now.state self.now.item self.now.is_first (λ first ps item. OnOk result (text.new.items ≡ text.old.items ++ answer_by H.rules ItemKind.Header first (units_in ps) item)) }
    {
        if self.is_first {
            self.state.answer_well(self.alloc, text)
        } else {
            self.state.refuse(self.alloc, 1, b"form", text)
        }
    }

    // Refuses the line behind those of the item that were counted.
    fn refuse_next(&self, text: &mut Vec<u8>, why: &[u8]) -> Result<(), NoMemory>
        ensures { OnOk result (text.new.items ≡ text.old.items ++ next_refused H.rules self.now.item why.now) }
    {
        self.state
            .refuse(self.alloc, self.item.counted() as u64 + 1, why, text)
    }
}

impl<H: Holder> Responder for Server<H> {
    ghost use Rattle.std.specs.Prelude.{◌≡◌, ◌<◌, ◌≤◌, ◌^◌, ◌++◌, ◌∷◌, [], ℕ, List, Bool, true, false, length, IfOk, IfSome, OnOk};
    ghost use Rattle.store_disk.specs.Image.{all_framed};
    ghost use Rattle.talk_server.specs.Room.{accepted-fits};
    ghost use Rattle.talk_server.specs.Serving.{Serves};
    ghost use Rattle.talk_server.specs.Talks.{server_rules};
    ghost use Rattle.turn_loop.specs.Talk.{Takes, WhereTaken, held_behind, payload_of, taken_of};

    ghost rules = { server_rules H.rules };

    ghost holds = { λ server first ps begun. Serves H.holds first ps begun server.state server.item server.is_first };

    fn take(&mut self, bytes: &[u8]) -> Result<Option<usize>, NoMemory> {
        self.item.take(bytes)
    }

    fn work(&mut self, text: &mut Vec<u8>, group: &mut Group) -> Result<(), NoMemory> {
        let accepted = self.answer(text)?;
        self.put(accepted, group)?;
        self.item.clear();
        self.is_first = false;
        Ok(())
    }

    fn close(&mut self, text: &mut Vec<u8>) -> Result<(), NoMemory> {
        if self.item.is_blank() {
            return Ok(());
        }
        if self.item.is_too_long() {
            return self.refuse_next(text, b"limit bytes");
        }
        self.refuse_next(text, b"unended")
    }

    ghost fits = { accepted-fits H.rules };
}
