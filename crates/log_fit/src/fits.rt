// How far cases go.
use case_core::Reply;
use file_model::Name64;
use log_records::WrongRecord;
use wsm_lists::{Listing, NoMemory};

/// How far a case goes.
#[derive(Drop)]
pub struct CaseFit {
    pub case: Name64,
    /// How many records the case has.
    pub events: u32,
    /// How many of the first of these are accepted, one after another.
    pub fits: u32,
    /// The answer to the one behind these, where there is one.
    pub next: Option<Reply>,
}

/// Cases in the order of their first records.
pub type Fits = Listing<CaseFit>;

/// Why a log is not worked.
#[derive(Clone, Copy, PartialEq, Eq, Debug)]
pub enum FitRefusal {
    /// The first record that is not of the form or brings one case too many.
    Wrong(WrongRecord),
    /// There was not enough memory.
    NoMemory,
}

impl From<NoMemory> for FitRefusal {
    ghost use Rattle.std.specs.Prelude.{◌≡◌};
    ghost use Rattle.log_fit.specs.declared.fits.FitRefusal.TheVariants as refusal;

    ghost from_gives = { λ _ e. e ≡ refusal.NoMemory };

    fn from(_error: NoMemory) -> FitRefusal {
        FitRefusal::NoMemory
    }
}
