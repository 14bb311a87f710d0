// Actors at work.
use adept_server::Desk;
use turn_cell::CallFault;

/// An actor at work: the actor's desk, and the fault that one of its calls met.
#[derive(Drop)]
pub struct Worker {
    pub desk: Desk,
    pub fault: Option<CallFault>,
}
