// The kinds of records. `kind_number` gives each kind's number in documents 01 and 02.
ghost use Rattle.std.specs.Prelude.{◌≡◌};
ghost use Rattle.sheet.specs.Kept.Kinds.{kind_number, NamesKind};

#[derive(Clone, Copy, PartialEq, Eq)]
pub enum Kind {
    // 1 to 5: a sheet.
    Machine,
    Move,
    End,
    Replacement,
    Withdrawal,
    // 16 to 18: a plan, which ends like a sheet.
    Numbers,
    Table,
    Bound,
}

// A number that no kind has.
#[derive(Clone, Copy)]
pub struct UnknownKind;

// The kind that a number names.
impl TryFrom<u16> for Kind {
    type Error = UnknownKind;

    ghost try_from_gives = { NamesKind };

    fn try_from(number: u16) -> Result<Self, UnknownKind> {
        match number {
            1 => Ok(Kind::Machine),
            2 => Ok(Kind::Move),
            3 => Ok(Kind::End),
            4 => Ok(Kind::Replacement),
            5 => Ok(Kind::Withdrawal),
            16 => Ok(Kind::Numbers),
            17 => Ok(Kind::Table),
            18 => Ok(Kind::Bound),
            _ => Err(UnknownKind),
        }
    }
}

// The number of a kind.
impl From<Kind> for u8 {
    ghost from_gives = { λ kind n. n ≡ kind_number kind };

    fn from(kind: Kind) -> u8 {
        match kind {
            Kind::Machine => 1,
            Kind::Move => 2,
            Kind::End => 3,
            Kind::Replacement => 4,
            Kind::Withdrawal => 5,
            Kind::Numbers => 16,
            Kind::Table => 17,
            Kind::Bound => 18,
        }
    }
}
