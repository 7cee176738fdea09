// The causes of refusals, of every layer, and refusals. `number_of` gives each cause's number in document 01.
ghost use Rattle.std.specs.Prelude.{◌≡◌, Ok, Err, OnOk, IfErr};
ghost use Rattle.sheet.specs.Refusal.{number_of, refusal};

#[derive(Clone, Copy, PartialEq, Eq)]
pub enum Cause {
    // 1 to 8: a sheet, and 21, below.
    CutShort,
    WrongKind,
    TrailingBytes,
    Misplaced,
    BadMachine,
    BadMove,
    BadGuard,
    BadCommand,
    // 9 to 12: planning.
    LargeGroup,
    LargePlan,
    LargeBound,
    WrongBuffer,
    // 13 to 18: commands.
    BadState,
    BadGoal,
    BadPlan,
    NotLive,
    NoRoute,
    DeadEnd,
    // 19: joining goals.
    NoSharedMode,
    // 20: reading a picture.
    NotAPicture,
    // 21: a sheet's amendments.
    Unamendable,
}

// Why a call is turned down: the cause, and its place.
#[derive(Clone, Copy, PartialEq, Eq)]
pub struct Refusal {
    pub cause: Cause,
    pub place: usize,
}

impl Cause {
    // The refusal for this cause, at a place.
    pub fn at(self, place: usize) -> Refusal
        ensures { result ≡ refusal self place }
    {
        Refusal { cause: self, place }
    }
}

// What a test of a record finds, as a refusal at the record's place.
pub fn placed(found: Result<(), Cause>, place: usize) -> Result<(), Refusal>
    ensures passed { OnOk result (found ≡ Ok tt) }
    ensures refused { IfErr result (λ r. (found ≡ Err r.cause) × (r.place ≡ place)) }
{
    found.map_err(|cause| cause.at(place))
}

// The number of a cause in document 01.
impl From<Cause> for u8 {
    ghost from_gives = { λ cause n. n ≡ number_of cause };

    fn from(cause: Cause) -> u8 {
        match cause {
            Cause::CutShort => 1,
            Cause::WrongKind => 2,
            Cause::TrailingBytes => 3,
            Cause::Misplaced => 4,
            Cause::BadMachine => 5,
            Cause::BadMove => 6,
            Cause::BadGuard => 7,
            Cause::BadCommand => 8,
            Cause::LargeGroup => 9,
            Cause::LargePlan => 10,
            Cause::LargeBound => 11,
            Cause::WrongBuffer => 12,
            Cause::BadState => 13,
            Cause::BadGoal => 14,
            Cause::BadPlan => 15,
            Cause::NotLive => 16,
            Cause::NoRoute => 17,
            Cause::DeadEnd => 18,
            Cause::NoSharedMode => 19,
            Cause::NotAPicture => 20,
            Cause::Unamendable => 21,
        }
    }
}
