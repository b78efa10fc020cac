#![tactic(auto)]
// The first step of a run: the input is checked, and nothing is changed.
ghost use Rattle.std.specs.Prelude.{◌≡◌};
ghost use Rattle.checks.specs.Checks.{is_short, is_bad, fault_of, check_says, check_said};

// The number of segments; the fill rule, 0 to 3; the overlay rule, 0 to 6; the budget of looks, 1 to 64.
// Numbers and no enums: a caller may give any, and `is_bad` refuses with 2 one that is no rule's.
#[derive(Clone, Copy, Debug, PartialEq, Eq)]
pub struct Settings {
    pub n: usize,
    pub fill: u32,
    pub rule: u32,
    pub budget: u32,
}

// Why an input is refused.
#[derive(Clone, Copy, Debug, PartialEq, Eq)]
pub enum Fault {
    // 1: n is over the limit, or a list is too short for n.
    Short,
    // 2: a rule number or the budget is out of range.
    BadSettings,
    // 3: a coordinate is off the grid.
    OffGrid,
    // 4: a segment has no length.
    NoLength,
    // 5: a count is -2^31.
    BadCount,
    // 6: an outline is open.
    Open,
}

// The first fault there is, from the input, the settings and how many numbers the work list and the masks have.
pub fn check(input: &[i32], settings: Settings, work: usize, masks: usize) -> Result<(), Fault>
    ensures value { result ≡ fault_of input.now settings work masks }
    ensures result_value { check_says result ≡ check_said input.now settings work masks }
{
    let n = settings.n;
    if short(n, input.len(), work, masks) {
        return Err(Fault::Short);
    }
    if bad(settings) {
        return Err(Fault::BadSettings);
    }
    if faults::some_row(input, n, faults::is_off) {
        return Err(Fault::OffGrid);
    }
    if faults::some_row(input, n, faults::is_point) {
        return Err(Fault::NoLength);
    }
    if faults::some_row(input, n, faults::has_least) {
        return Err(Fault::BadCount);
    }
    if outlines::some_open(input, n) {
        return Err(Fault::Open);
    }
    Ok(())
}

#[tactic(auto, unfolding(crate::specs::Checks::is_short))]
fn short(n: usize, input: usize, work: usize, masks: usize) -> bool
    ensures { result ≡ is_short n input work masks }
{
    let room = rooms::work_room(work);
    2048 < n || input < 6 * n || room < n || masks < room
}

// By numbers, and not by the rules' `try_from`: the edits rule_seven_allowed and budget_zero_allowed plant their mistakes here.
#[tactic(auto, unfolding(crate::specs::Checks::is_bad))]
fn bad(settings: Settings) -> bool
    ensures { result ≡ is_bad settings }
{
    3 < settings.fill || 6 < settings.rule || !(1..=64).contains(&settings.budget)
}
