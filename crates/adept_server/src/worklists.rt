// Work lists.
use case_core::CaseId;
use wsm_lists::Listing;

/// A node of a case that is offered to a role.
#[derive(Clone, Copy, PartialEq, Eq, Debug)]
pub struct Offer {
    pub case: CaseId,
    pub node: u32,
}

/// Offers in order of cases, and of the nodes of each case.
pub type Offers = Listing<Offer>;
