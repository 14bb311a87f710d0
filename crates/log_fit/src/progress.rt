// A case of a log while its records are taken.
ghost use Rattle.std.specs.Prelude.{◌≡◌, ◌<◌, ◌≤◌, ◌+◌, IfOk, IfSome, OnErr, OnOk};
ghost use Rattle.case_core.specs.Ages.{age, weight};
ghost use Rattle.log_fit.specs.{Fit.{answered, event_on, goes_on}, Progress.{fit_of, opened_row, reach, tried}};

use crate::fits::CaseFit;
use case_core::{Case, Event, Reply};
use file_model::Name64;
use log_records::LogEvent;
use std::alloc::Global;
use std::marker::Model;
use wsm_lists::{NoMemory, RoleList};
use wsm_sound::Version;

/// A case while its records are taken: its state, how many records it had, how many of these fit, and what was answered to
/// the one that did not.
#[derive(Drop)]
pub(crate) struct Progress {
    pub(crate) name: Name64,
    pub(crate) machine: Case,
    pub(crate) events: u32,
    pub(crate) fits: u32,
    pub(crate) next: Option<Reply>,
}

impl Model for Progress {
    ghost use Rattle.std.specs.{Prelude.{◌≤◌}, Coded.codes};
    ghost use Rattle.case_core.specs.{Ages.age, Codes.case_code};
    ghost use Rattle.log_fit.specs.Progress.{ProgressModel};

    ghost Value = { ProgressModel };

    ghost coded = { Prim.hlevel (codes, case_code) };

    ghost view = { λ a. record { name = a.name; machine = a.machine.state; events = a.events; fits = a.fits; next = a.next } };

    ghost invariant = { λ a. (age a.machine.state ≤ a.events) × (a.fits ≤ a.events) };
}

// The event of a case. None where it is on a node that the file does not name.
fn event_on(alloc: Global, version: &Version, event: LogEvent) -> Result<Option<Event>, NoMemory>
    ensures event { IfOk result (λ found. found ≡ event_on version.now event) }
    ensures weight { IfOk result (λ found. IfSome found (λ e. weight e ≡ 1)) }
{
    match event {
        LogEvent::Start { node, user } => {
            let Some(node) = node else {
                return Ok(None);
            };
            let role = version.checked().schema().roles.role(node);
            let roles = RoleList::of_one(alloc, role)?;
            Ok(Some(Event::Start { node, user, roles }))
        }
        LogEvent::End {
            node,
            user,
            writes,
            choice,
        } => {
            let Some(node) = node else {
                return Ok(None);
            };
            Ok(Some(Event::End {
                node,
                user,
                writes,
                choice,
            }))
        }
    }
}

// What the case answers.
fn answer(
    machine: &mut Case,
    alloc: Global,
    version: &Version,
    event: LogEvent,
) -> Result<Reply, NoMemory>
    requires { age machine.old.state + 1 ≤ 4000000000 }
    ensures machine { OnOk result (machine.new.state ≡ (answered version.now machine.old.state event).0) }
    ensures reply { IfOk result (λ reply. reply ≡ (answered version.now machine.old.state event).1) }
    ensures age { OnOk result (age machine.new.state ≤ age machine.old.state + 1) }
    ensures err { OnErr result (machine.new.state ≡ machine.old.state) }
{
    let Some(event) = event_on(alloc, version, event)? else {
        return Ok(Reply::NoNode);
    };
    let (reply, _) = machine.step(alloc, &event)?;
    Ok(reply)
}

// Whether an event was accepted.
fn goes_on(reply: &Reply) -> bool
    ensures { result ≡ goes_on reply.now }
{
    matches!(reply, Reply::Started(_) | Reply::Ended | Reply::Repeated)
}

impl Progress {
    /// A case that was just created.
    pub(crate) fn new(alloc: Global, version: &Version, name: Name64) -> Result<Progress, NoMemory>
        ensures { IfOk result (λ new. new ≡ opened_row version.now name) }
    {
        let mut machine = Case::new(alloc, version.type_no());
        let _ = machine.step(alloc, &Event::Create(version.share()?))?;
        Ok(Progress {
            name,
            machine,
            events: 0,
            fits: 0,
            next: None,
        })
    }

    /// One record more. Behind one that was refused none is tried.
    pub(crate) fn take(
        &mut self,
        alloc: Global,
        version: &Version,
        event: LogEvent,
    ) -> Result<(), NoMemory>
        requires { self.old.events < 4000000000 }
        ensures { OnOk result (self.new ≡ reach version.now self.old event) }
    {
        if self.next.is_none() {
            return self.go_on(alloc, version, event);
        }
        self.events += 1;
        Ok(())
    }

    // One record more, where none was refused before.
    fn go_on(&mut self, alloc: Global, version: &Version, event: LogEvent) -> Result<(), NoMemory>
        requires { self.old.events < 4000000000 }
        ensures { OnOk result (self.new ≡ tried self.old (answered version.now self.old.machine event)) }
    {
        let reply = answer(&mut self.machine, alloc, version, event)?;
        self.events += 1;
        if goes_on(&reply) {
            self.fits += 1;
        } else {
            self.next = Some(reply);
        }
        Ok(())
    }

    /// How far the case went.
    pub(crate) fn into_fit(self) -> CaseFit
        ensures { result ≡ fit_of self }
    {
        CaseFit {
            case: self.name,
            events: self.events,
            fits: self.fits,
            next: self.next,
        }
    }
}
