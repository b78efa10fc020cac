#![tactic(auto)]
// An answer as three numbers, for callers that take no enum: programs and the languages that link the library.
ghost use Rattle.std.specs.Prelude.{◌≡◌};
ghost use Rattle.overlay.specs.Numbers.{told};
ghost use Rattle.report.specs.Report.{reported};

use overlay::answer::Answer;

// Document 01's number of the answer, m, and the looks made.
#[repr(C)]
#[derive(Clone, Copy)]
pub struct Report {
    pub answer: u64,
    pub segments: u64,
    pub looks: u64,
}

impl From<Answer> for Report {
    ghost from_gives = { λ a r. r ≡ reported (told a) };

    fn from(a: Answer) -> Report {
        match a {
            Ok(settled) => Report {
                answer: 0,
                // `as`: there is no From of usize into u64.
                segments: settled.segments as u64,
                looks: settled.looks as u64,
            },
            Err(refusal) => Report {
                answer: refusal.number(),
                segments: 0,
                looks: 0,
            },
        }
    }
}

// Beside `From`: a public function keeps its promise.
pub fn of(a: Answer) -> Report
    ensures { result ≡ reported (told a) }
{
    Report::from(a)
}
