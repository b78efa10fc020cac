// What a run answers.
ghost use Rattle.std.specs.Prelude.{◌≡◌};
ghost use Rattle.overlay.specs.Numbers.{number_of, refusal_of};

use checks::Fault;

// 0: no two edges meet except at ends of both. So many segments, after so many looks.
#[derive(Clone, Copy, PartialEq, Eq)]
pub struct Settled {
    pub segments: usize,
    pub looks: usize,
}

#[derive(Clone, Copy, PartialEq, Eq)]
pub enum Refusal {
    // 1: n is over the limit, or a list is too short for n.
    Short = 1,
    // 2: a rule number or the budget is out of range.
    BadSettings = 2,
    // 3: a coordinate is off the grid.
    OffGrid = 3,
    // 4: a segment has no length.
    NoLength = 4,
    // 5: a count is -2^31.
    BadCount = 5,
    // 6: an outline is open.
    Open = 6,
    // 7: a look yields more marks than there is room for.
    MarksFull = 7,
    // 8: the pieces have no room in the work list.
    WorkFull = 8,
    // 9: the total of equal segments is too big.
    TooBig = 9,
    // 10: the last look allowed still yields marks.
    Unsettled = 10,
    // 11: more segments are live than the scan list has room for.
    ScanFull = 11,
}

pub type Answer = Result<Settled, Refusal>;

impl Refusal {
    // Document 01's number of the refusal.
    pub fn number(self) -> u64
        ensures { result ≡ number_of self }
    {
        self as u64
    }
}

// A fault of the input is the refusal of the same name.
impl From<Fault> for Refusal {
    ghost from_gives = { λ f r. r ≡ refusal_of f };

    fn from(fault: Fault) -> Refusal {
        match fault {
            Fault::Short => Refusal::Short,
            Fault::BadSettings => Refusal::BadSettings,
            Fault::OffGrid => Refusal::OffGrid,
            Fault::NoLength => Refusal::NoLength,
            Fault::BadCount => Refusal::BadCount,
            Fault::Open => Refusal::Open,
        }
    }
}
