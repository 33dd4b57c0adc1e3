// The kinds of entries.
ghost use Rattle.std.specs.Prelude.{◌≡◌};
ghost use Rattle.entry.specs.Entries.{letter_of, part_of, planned_of, said_by, shown};

// A part of a sheet: its bytes, where they begin, and which entry they are, counted from 1.
#[derive(Clone, Copy, Debug, PartialEq, Eq)]
pub struct Part<'a> {
    pub bytes: &'a [u8],
    pub offset: usize,
    pub place: u16,
}

// A plan with its numbers as they stand on the sheet.
#[derive(Clone, Copy, Debug, PartialEq, Eq)]
pub enum Plan {
    Known {
        n: i32,
        limit: i32,
        sigma: i32,
        k: i32,
    },
    Unknown {
        n: i32,
        limit: i32,
        k: i32,
    },
    Window {
        n: i32,
        lower: i32,
        upper: i32,
        k: i32,
    },
    Marks {
        n: i32,
        most: i32,
    },
    Gauged {
        n: i32,
        low: i32,
        high: i32,
        most: i32,
    },
    Mean {
        n: i32,
        mean: i32,
    },
    Paired {
        n: i32,
    },
}

// What an entry says, without its part of a sheet.
#[derive(Clone, Copy, Debug, PartialEq, Eq)]
pub enum Said {
    Planned(Plan),
    Drum(i32),
    Reading(i32),
    Pair(i32, i32),
    Mark(bool),
}

// An entry of a sheet: what it says, with its own part of the sheet.
#[derive(Clone, Copy, Debug, PartialEq, Eq)]
pub enum Entry<'a> {
    Planned(Part<'a>, Plan),
    Drum(Part<'a>, i32),
    Reading(Part<'a>, i32),
    Pair(Part<'a>, i32, i32),
    Mark(Part<'a>, bool),
}

impl Plan {
    // The letter of the plan's entry, a byte of the sheet.
    pub fn letter(self) -> u8
        ensures { result ≡ letter_of self }
    {
        match self {
            Plan::Known { .. } => b'K',
            Plan::Unknown { .. } => b'U',
            Plan::Window { .. } => b'W',
            Plan::Marks { .. } => b'A',
            Plan::Gauged { .. } => b'G',
            Plan::Mean { .. } => b'T',
            Plan::Paired { .. } => b'V',
        }
    }

    // The planned number, as it stands on the sheet.
    pub fn planned(self) -> i32
        ensures { result ≡ planned_of self }
    {
        match self {
            Plan::Known { n, .. }
            | Plan::Unknown { n, .. }
            | Plan::Window { n, .. }
            | Plan::Marks { n, .. }
            | Plan::Gauged { n, .. }
            | Plan::Mean { n, .. }
            | Plan::Paired { n } => n,
        }
    }
}

// Each conversion has an arm a case, since every case of an entry holds its own part of the sheet.
impl<'a> Entry<'a> {
    // The entry that says this in that part of a sheet.
    pub fn new(part: Part<'a>, said: Said) -> Entry<'a>
        ensures { (said_by result ≡ said) × (part_of result ≡ shown part.entry) }
    {
        match said {
            Said::Planned(plan) => Entry::Planned(part, plan),
            Said::Drum(name) => Entry::Drum(part, name),
            Said::Reading(reading) => Entry::Reading(part, reading),
            Said::Pair(first, second) => Entry::Pair(part, first, second),
            Said::Mark(conforms) => Entry::Mark(part, conforms),
        }
    }

    pub fn said(self) -> Said
        ensures { result ≡ said_by self.entry }
    {
        match self {
            Entry::Planned(_, plan) => Said::Planned(plan),
            Entry::Drum(_, name) => Said::Drum(name),
            Entry::Reading(_, reading) => Said::Reading(reading),
            Entry::Pair(_, first, second) => Said::Pair(first, second),
            Entry::Mark(_, conforms) => Said::Mark(conforms),
        }
    }

    pub fn part(self) -> Part<'a>
        ensures { shown result ≡ part_of self.entry }
    {
        match self {
            Entry::Planned(part, _)
            | Entry::Drum(part, _)
            | Entry::Reading(part, _)
            | Entry::Pair(part, _, _)
            | Entry::Mark(part, _) => part,
        }
    }
}
