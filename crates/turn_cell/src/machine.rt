//! What a cell runs: a deterministic machine, which answers events.
ghost use Rattle.std.specs.Prelude.{◌≡◌, ℕ, ◌+◌, ◌≤◌, IfOk, OnErr};

use crate::limits::MAX_AGE;
pub use std::alloc::AllocError as NoMemory;
use std::alloc::Global;

/// A machine whose next state and reply depend on its state and the event alone.
pub trait Machine: Send + Sync + Drop {
    type Event: Send + Sync + Drop;

    type Reply: Send + Sync + Drop;

    /// What a caller without an event is shown.
    type View: Send + Sync + Drop;

    /// The state that contracts speak of. No value of it is made.
    type State;

    // What state a machine is in.
    ghost state: { Self → Self.State };

    // The state after an event, and the reply to it.
    ghost after: { Self.State → Self.Event → Self.State };

    ghost reply: { Self.State → Self.Event → Self.Reply };

    // The view of a state.
    ghost shown: { Self.State → Self.View };

    // By as much as an event weighs, it may age the state.
    ghost age: { Self.State → ℕ };

    ghost weight: { Self.Event → ℕ };

    // A count of reads, which is no part of the state, and by how much an event may raise it.
    ghost reads: { Self → ℕ };

    ghost allowance: { Self.State → Self.Event → ℕ };

    /// Answers the reply twice: one is to be kept, and one to be given out. After `NoMemory` the state is as before.
    fn step(
        &mut self,
        alloc: Global,
        event: &Self::Event,
    ) -> Result<(Self::Reply, Self::Reply), NoMemory>
        requires room { age (state self.old) + weight event.now ≤ MAX_AGE }
        ensures state { IfOk result (λ _. state self.new ≡ after (state self.old) event.now) }
        ensures replies { IfOk result (λ r. (r.0 ≡ reply (state self.old) event.now) × (r.1 ≡ reply (state self.old) event.now)) }
        ensures age { IfOk result (λ _. age (state self.new) ≤ age (state self.old) + weight event.now) }
        ensures kept { OnErr result (state self.new ≡ state self.old) }
        ensures reads { (reads self.old ≤ reads self.new) × (reads self.new ≤ reads self.old + allowance (state self.old) event.now) };

    /// The view of the state that the machine is in.
    fn view(&self, alloc: Global) -> Result<Self::View, NoMemory>
        ensures { IfOk result (λ v. v ≡ shown (state self.now)) };

    /// An equal event.
    fn copy_event(alloc: Global, event: &Self::Event) -> Result<Self::Event, NoMemory>
        ensures { IfOk result (λ e. e ≡ event.now) };
}
