// Carries lots of every plan out on a bench, and holds each verdict to a second calculation.
#![tactic(auto)]

mod agreement;
mod chance;
mod counted;
mod desk;
mod error;
mod exact;
mod limits;
mod means;
mod patterns;
mod second;
mod working;

use chance::Chance;
use error::TrialError;
use second::Side;
use std::io;

// The lots of each plan.
const LOTS: u32 = 400;

// Each plan draws from this number and its letter.
const SEED: u64 = 20_261;

// Tries lots of a plan until one is not agreed on. Counts as it goes, so that no list of lots is kept.
fn try_plan<F: Fn(&mut Chance) -> Result<Side, TrialError>>(
    rt: &HostRuntime,
    letter: char,
    lot: F,
) -> Result<(), TrialError>
    requires { F.IsAlwaysCallable lot }
{
    let mut chance = Chance::new(rt.alloc(), SEED ^ u64::from(letter));
    let mut accepted: u32 = 0;
    let mut on_limit: u32 = 0;
    for i in 0..LOTS {
        match lot(&mut chance) {
            Ok(side) => {
                accepted = accepted.saturating_add(u32::from(side.verdict().is_yes()));
                on_limit = on_limit.saturating_add(u32::from(side == Side::OnLimit));
            }
            Err(error) => {
                println!(rt; "{letter} lot {i}: {error}")?;
                return Err(error);
            }
        }
    }
    println!(rt; "{letter} {LOTS} lots agreed, {accepted} accepted, {on_limit} on the limit")?;
    Ok(())
}

fn main(rt: HostRuntime) -> Result<(), TrialError> {
    try_plan(&rt, 'K', limits::known)?;
    try_plan(&rt, 'U', limits::unknown)?;
    try_plan(&rt, 'W', limits::window)?;
    try_plan(&rt, 'A', counted::marks)?;
    try_plan(&rt, 'G', counted::gauged)?;
    try_plan(&rt, 'T', means::mean)?;
    try_plan(&rt, 'V', means::paired)
}
