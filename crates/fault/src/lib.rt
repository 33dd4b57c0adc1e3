// Every refusal of the product: what was refused, in which layer, and at which entry of a sheet.
#![tactic(auto)]

ghost use Rattle.std.specs.Prelude.{◌≡◌};
ghost use Rattle.fault.specs.Faults.{entry, layer, met, number};
ghost use Rattle.fault.specs.Located.{located};

mod memory;
mod printing;

use std::error::Error;

// Where a refusal comes from.
#[derive(Clone, Copy, Debug, PartialEq, Eq)]
pub enum Layer {
    Sheet,
    Entry,
    Method,
    Bench,
    Machine,
}

// What was refused, with the entry at which it was met: 0 where the call had no sheet.
#[derive(Clone, Copy, Debug, PartialEq, Eq)]
pub enum Fault {
    SheetSize,
    EntryPlace(u16),
    EntryForm(u16),
    EntryOrder(u16),
    PlanConstant(u16),
    PlannedNumber(u16),
    RowSize(u16),
    RowInconsistent(u16),
    NameRange(u16),
    NameOpen(u16),
    RowFull(u16),
    NameNotOpen(u16),
    PouredOntoItself(u16),
    ReadingNotTaken(u16),
    PouredPastPlan(u16),
    PlanFull(u16),
    TallyFull(u16),
    ReadingsMissing,
    NoMemory,
}

impl Fault {
    // The number by which the fault is known to the people at the bench.
    pub fn number(self) -> u8
        ensures { result ≡ number self }
    {
        match self {
            Fault::SheetSize => 1,
            Fault::EntryPlace(_) => 2,
            Fault::EntryForm(_) => 3,
            Fault::EntryOrder(_) => 4,
            Fault::PlanConstant(_) => 5,
            Fault::PlannedNumber(_) => 6,
            Fault::RowSize(_) => 7,
            Fault::RowInconsistent(_) => 8,
            Fault::NameRange(_) => 9,
            Fault::NameOpen(_) => 10,
            Fault::RowFull(_) => 11,
            Fault::NameNotOpen(_) => 12,
            Fault::PouredOntoItself(_) => 13,
            Fault::ReadingNotTaken(_) => 14,
            Fault::PouredPastPlan(_) => 15,
            Fault::PlanFull(_) => 16,
            Fault::TallyFull(_) => 16,
            Fault::ReadingsMissing => 17,
            Fault::NoMemory => 0,
        }
    }

    pub fn layer(self) -> Layer
        ensures { result ≡ layer self }
    {
        match self {
            Fault::SheetSize | Fault::EntryPlace(_) => Layer::Sheet,
            Fault::EntryForm(_) | Fault::EntryOrder(_) => Layer::Entry,
            Fault::PlanConstant(_)
            | Fault::PlannedNumber(_)
            | Fault::ReadingNotTaken(_)
            | Fault::TallyFull(_) => Layer::Method,
            Fault::NoMemory => Layer::Machine,
            _ => Layer::Bench,
        }
    }

    // The entry, as it is printed: 0 is none by the rules.
    pub fn entry(self) -> u16
        ensures { result ≡ entry self }
    {
        match self {
            Fault::SheetSize | Fault::ReadingsMissing | Fault::NoMemory => 0,
            Fault::EntryPlace(i)
            | Fault::EntryForm(i)
            | Fault::EntryOrder(i)
            | Fault::PlanConstant(i)
            | Fault::PlannedNumber(i)
            | Fault::RowSize(i)
            | Fault::RowInconsistent(i)
            | Fault::NameRange(i)
            | Fault::NameOpen(i)
            | Fault::RowFull(i)
            | Fault::NameNotOpen(i)
            | Fault::PouredOntoItself(i)
            | Fault::ReadingNotTaken(i)
            | Fault::PouredPastPlan(i)
            | Fault::PlanFull(i)
            | Fault::TallyFull(i) => i,
        }
    }

    // The same fault, met at entry i of a sheet. Each case has an arm, since each that has an entry holds its own.
    pub fn at(self, i: u16) -> Fault
        ensures { result ≡ met i self }
    {
        match self {
            Fault::SheetSize | Fault::ReadingsMissing | Fault::NoMemory => self,
            Fault::EntryPlace(_) => Fault::EntryPlace(i),
            Fault::EntryForm(_) => Fault::EntryForm(i),
            Fault::EntryOrder(_) => Fault::EntryOrder(i),
            Fault::PlanConstant(_) => Fault::PlanConstant(i),
            Fault::PlannedNumber(_) => Fault::PlannedNumber(i),
            Fault::RowSize(_) => Fault::RowSize(i),
            Fault::RowInconsistent(_) => Fault::RowInconsistent(i),
            Fault::NameRange(_) => Fault::NameRange(i),
            Fault::NameOpen(_) => Fault::NameOpen(i),
            Fault::RowFull(_) => Fault::RowFull(i),
            Fault::NameNotOpen(_) => Fault::NameNotOpen(i),
            Fault::PouredOntoItself(_) => Fault::PouredOntoItself(i),
            Fault::ReadingNotTaken(_) => Fault::ReadingNotTaken(i),
            Fault::PouredPastPlan(_) => Fault::PouredPastPlan(i),
            Fault::PlanFull(_) => Fault::PlanFull(i),
            Fault::TallyFull(_) => Fault::TallyFull(i),
        }
    }
}

// A call's answer, its fault met at entry i of a sheet.
pub fn within<T>(answer: Result<T, Fault>, i: u16) -> Result<T, Fault>
    ensures { result ≡ located i answer }
{
    answer.map_err(|fault| fault.at(i))
}

impl Error for Fault {}
