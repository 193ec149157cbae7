//! How far a transaction has come.

ghost use Rattle.std.specs.Prelude.{◌≡◌};
ghost use Rattle.sk_linked.specs.Plans.{is_running, is_over, steps_of, step_number, comes_next, behind, close_of, draw_of, stamp_of};
ghost use Rattle.sk_core.specs.Progress.{stage_of};

use crate::copies::same_items;
use crate::marks::Marks;
use sk_model::{EngineName, StepName};
use sk_rows::{Copies, List, NoMemory};
use std::alloc::Global;

/// How far a transaction has come.
#[derive(Drop)]
pub enum Progress {
    /// No commit step was taken.
    Running,
    /// These commit steps are left.
    Stepping(List<StepName>),
    /// It left one of its engines.
    Leaving,
    Over,
}

impl Copies for Progress {
    fn copy(&self, alloc: Global) -> Result<Progress, NoMemory> {
        match self {
            Progress::Running => Ok(Progress::Running),
            Progress::Stepping(steps) => {
                Ok(Progress::Stepping(same_items(alloc, steps.as_slice())?))
            }
            Progress::Leaving => Ok(Progress::Leaving),
            Progress::Over => Ok(Progress::Over),
        }
    }
}

impl Progress {
    pub(crate) fn is_running(&self) -> bool
        ensures { result ≡ is_running (stage_of self.now) }
    {
        match self {
            Progress::Running => true,
            Progress::Stepping(_) | Progress::Leaving | Progress::Over => false,
        }
    }

    pub(crate) fn is_over(&self) -> bool
        ensures { result ≡ is_over (stage_of self.now) }
    {
        match self {
            Progress::Over => true,
            Progress::Running | Progress::Stepping(_) | Progress::Leaving => false,
        }
    }
}

/// The commit steps of a transaction that wrote these engines.
pub(crate) fn steps_of(wrote: Marks) -> &'static [StepName]
    ensures { result.now ≡ steps_of wrote }
{
    match (wrote.mem, wrote.store) {
        (true, true) => &[
            StepName::CloseMem,
            StepName::CloseStore,
            StepName::DrawMem,
            StepName::DrawStore,
            StepName::Check,
            StepName::StampMem,
            StepName::StampStore,
        ],
        (true, false) => &[StepName::CloseMem, StepName::DrawMem, StepName::StampMem],
        (false, true) => &[
            StepName::CloseStore,
            StepName::DrawStore,
            StepName::StampStore,
        ],
        (false, false) => &[],
    }
}

/// The place of a step among all seven.
fn step_number(step: StepName) -> u8
    ensures { result ≡ step_number step }
{
    match step {
        StepName::CloseMem => 0,
        StepName::CloseStore => 1,
        StepName::DrawMem => 2,
        StepName::DrawStore => 3,
        StepName::Check => 4,
        StepName::StampMem => 5,
        StepName::StampStore => 6,
    }
}

/// Whether the step is the first of these.
pub(crate) fn comes_next(step: StepName, steps: &[StepName]) -> bool
    ensures { result ≡ comes_next step steps.now }
{
    match steps {
        [] => false,
        [first, ..] => step_number(step) == step_number(*first),
    }
}

/// The steps behind the first.
pub(crate) fn behind(steps: &[StepName]) -> &[StepName]
    ensures { result.now ≡ behind steps.now }
{
    match steps {
        [] => &[],
        [_, rest @ ..] => rest,
    }
}

pub(crate) fn close_of(name: EngineName) -> StepName
    ensures { result ≡ close_of name }
{
    match name {
        EngineName::Mem => StepName::CloseMem,
        EngineName::Store => StepName::CloseStore,
    }
}

pub(crate) fn draw_of(name: EngineName) -> StepName
    ensures { result ≡ draw_of name }
{
    match name {
        EngineName::Mem => StepName::DrawMem,
        EngineName::Store => StepName::DrawStore,
    }
}

pub(crate) fn stamp_of(name: EngineName) -> StepName
    ensures { result ≡ stamp_of name }
{
    match name {
        EngineName::Mem => StepName::StampMem,
        EngineName::Store => StepName::StampStore,
    }
}
