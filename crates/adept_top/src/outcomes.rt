// How a run of the program ends.
ghost use Rattle.std.specs.Prelude.{◌≡◌, None, Some};

use adept_io::ReadRefusal;
use process_text::{FileRefusal, Refused};
use report_text::Run;

/// How a run of the program ends.
#[derive(Drop)]
pub struct Outcome {
    /// 0: done; 1: the file is refused; 2: the words are no command; 3: reading failed; 4: writing failed;
    /// 5: there was not enough memory; 6: the input is too long.
    pub status: u8,
    /// What was worked, at statuses 0 and 4.
    pub run: Option<Run>,
    /// Where and why the file is refused, at status 1.
    pub place: Option<Refused>,
}

impl Outcome {
    /// An end without a run and without a place.
    pub fn of_status(status: u8) -> Outcome
        ensures { result ≡ record { status = status; run = None; place = None } }
    {
        Outcome {
            status,
            run: None,
            place: None,
        }
    }

    /// The end of a run.
    pub fn of_run(status: u8, run: Run) -> Outcome
        ensures { result ≡ record { status = status; run = Some run; place = None } }
    {
        Outcome {
            status,
            run: Some(run),
            place: None,
        }
    }
}

impl From<ReadRefusal> for Outcome {
    ghost use Rattle.std.specs.Prelude.{◌≡◌};
    ghost use Rattle.adept_top.specs.Statuses.{of_read};

    ghost from_gives = { λ refusal end. end ≡ of_read refusal };

    fn from(refusal: ReadRefusal) -> Outcome {
        match refusal {
            ReadRefusal::Failed => Outcome::of_status(3),
            ReadRefusal::NoMemory => Outcome::of_status(5),
            ReadRefusal::TooLong => Outcome::of_status(6),
        }
    }
}

impl From<FileRefusal> for Outcome {
    ghost use Rattle.std.specs.Prelude.{◌≡◌};
    ghost use Rattle.adept_top.specs.Statuses.{of_file};

    ghost from_gives = { λ refusal end. end ≡ of_file refusal };

    fn from(refusal: FileRefusal) -> Outcome {
        match refusal {
            FileRefusal::Refused(place) => Outcome {
                status: 1,
                run: None,
                place: Some(place),
            },
            FileRefusal::NoMemory => Outcome::of_status(5),
        }
    }
}
