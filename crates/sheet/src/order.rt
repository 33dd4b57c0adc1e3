// The order of entries: a plan first and only there, a drum before what is measured on it, and only what fits the plan.
ghost use Rattle.std.specs.Prelude.{◌≡◌};
ghost use Rattle.sheet.specs.Order.{followed, kind_of};

use entry::{Plan, Said};

// What a plan is on.
#[derive(Clone, Copy, Debug, PartialEq, Eq)]
pub enum Kind {
    OfReadings,
    OfPairs,
    OfMarks,
}

// How far a sheet has come: before its plan, before its first drum, or among its drums.
#[derive(Clone, Copy, Debug, PartialEq, Eq)]
pub enum Stage {
    BeforePlan,
    BeforeDrums(Kind),
    AmongDrums(Kind),
}

fn kind_of(plan: Plan) -> Kind
    ensures { result ≡ kind_of plan }
{
    match plan {
        Plan::Marks { .. } => Kind::OfMarks,
        Plan::Paired { .. } => Kind::OfPairs,
        _ => Kind::OfReadings,
    }
}

// The stage behind an entry that says this, where it may stand here.
pub(crate) fn follow(stage: Stage, said: Said) -> Option<Stage>
    ensures { result ≡ followed stage said }
{
    match (stage, said) {
        (Stage::BeforePlan, Said::Planned(plan)) => Some(Stage::BeforeDrums(kind_of(plan))),
        (Stage::BeforeDrums(kind) | Stage::AmongDrums(kind), Said::Drum(_)) => {
            Some(Stage::AmongDrums(kind))
        }
        (Stage::AmongDrums(Kind::OfReadings), Said::Reading(_))
        | (Stage::AmongDrums(Kind::OfPairs), Said::Pair(_, _))
        | (Stage::AmongDrums(Kind::OfMarks), Said::Mark(_)) => Some(stage),
        _ => None,
    }
}
