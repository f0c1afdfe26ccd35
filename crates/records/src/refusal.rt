// Why a service refuses: the refusals by name, each with its place, and the number that callers outside know it by.
ghost use Rattle.std.specs.Prelude.{◌≡◌};
ghost use Rattle.records.specs.Costs.{placed};
ghost use Rattle.records.specs.Refusals.{number_of, place_of};

// What is wrong in a record: its first four bytes are not the due ones, or what it states is out of range.
#[derive(Clone, Copy, PartialEq, Eq)]
pub enum Fault {
    WrongKey,
    WrongValue,
}

// A refusal. The number beside a variant is a place: that of a record or of a module, counted from 1.
#[derive(Clone, Copy, PartialEq, Eq)]
pub enum Refusal {
    // Of cost records: no record or no whole ones, no board's record first, a board out of range, another length than the board's, and
    // a record at fault.
    NotWhole,
    NoBoard,
    BoardRange,
    WrongLength,
    Faulty(Fault, u32),
    // Of what is lent: too few plan bytes, too small a work area.
    ShortPlan,
    ShortWork,
    // Of the planners: no plan keeps the rules, no such grouping, a start that does not fit.
    NoPlan,
    NoGrouping,
    NoStart,
    // Of a plan: its shape, a module with copies that it may not have, over its memory, a plan over the board's cores, a module over its limit.
    BadShape(u32),
    NoCopies(u32),
    OverMemory(u32),
    OverCores,
    AboveLimit(u32),
    // Of laws: not the due ones, a value out of range, too little room for the records.
    WrongLaws,
    LawRange,
    ShortOutput,
    // Of a timetable: a module with copies, as many blocks as may not be asked for.
    Copied(u32),
    WrongBlocks,
}

// What is wrong in the record at a place, as a refusal.
pub(crate) fn placed(found: Result<(), Fault>, place: u32) -> Result<(), Refusal>
    ensures { result ≡ placed place found }
{
    found.map_err(|fault| Refusal::Faulty(fault, place))
}

impl Refusal {
    // The number that the interfaces give, from 1 on.
    pub fn number(self) -> u32
        ensures { result ≡ number_of self }
    {
        match self {
            Refusal::NotWhole => 1,
            Refusal::NoBoard => 2,
            Refusal::BoardRange => 3,
            Refusal::WrongLength => 4,
            Refusal::Faulty(Fault::WrongKey, _) => 5,
            Refusal::Faulty(Fault::WrongValue, _) => 6,
            Refusal::ShortPlan => 7,
            Refusal::ShortWork => 8,
            Refusal::NoPlan => 9,
            Refusal::NoGrouping => 10,
            Refusal::NoStart => 11,
            Refusal::BadShape(_) => 12,
            Refusal::NoCopies(_) => 13,
            Refusal::OverMemory(_) => 14,
            Refusal::OverCores => 15,
            Refusal::AboveLimit(_) => 16,
            Refusal::WrongLaws => 17,
            Refusal::LawRange => 18,
            Refusal::ShortOutput => 19,
            Refusal::Copied(_) => 20,
            Refusal::WrongBlocks => 21,
        }
    }

    // The place, 0 for none.
    pub fn place(self) -> u32
        ensures { result ≡ place_of self }
    {
        match self {
            Refusal::Faulty(_, place) => place,
            Refusal::BadShape(place) => place,
            Refusal::NoCopies(place) => place,
            Refusal::OverMemory(place) => place,
            Refusal::AboveLimit(place) => place,
            Refusal::Copied(place) => place,
            _ => 0,
        }
    }
}
