// Which answer a future makes.
ghost use Rattle.std.specs.Prelude.{◌≡◌, false, map};
ghost use Rattle.fc_kind.specs.Names.{Covers};
ghost use Rattle.fc_phase.specs.Phases.{Turned, left_of};

use crate::Turn;
use crate::least_progress::LeastProgress;
use crate::progress::Progress;
use fc_base::WantMemory;
use fc_kind::FacetKind;
use std::alloc::Global;

/// The answer to an ask, or the one from counts on.
#[derive(Drop)]
pub(crate) enum Course<'a> {
    Asked(Progress<'a>),
    Least(LeastProgress<'a>),
}

impl Course<'_> {
    ghost use Rattle.fc_phase.specs.Courses.{course_phase};

    /// Does one unit.
    pub(crate) fn turn(
        &mut self,
        alloc: Global,
        kinds: &[Box<dyn FacetKind>],
    ) -> Result<Turn, WantMemory>
        requires covers { Covers (map name kinds.now) }
        requires fresh { (course_phase self.old).spent ≡ false }
        ensures { Turned (course_phase self.old) (course_phase self.new) result }
    {
        match self {
            Course::Asked(progress) => progress.turn(alloc, kinds),
            Course::Least(progress) => progress.turn(alloc, kinds),
        }
    }

    /// Whether there is no further turn.
    pub(crate) fn spent(&self) -> bool
        ensures { result ≡ (course_phase self.now).spent }
    {
        match self {
            Course::Asked(progress) => progress.spent(),
            Course::Least(progress) => progress.spent(),
        }
    }

    /// How many units are done.
    pub(crate) fn done(&self) -> u64
        ensures { result ≡ (course_phase self.now).done }
    {
        match self {
            Course::Asked(progress) => progress.done(),
            Course::Least(progress) => progress.done(),
        }
    }

    /// How many units of known jobs are not done.
    pub(crate) fn left(&self) -> u64
        ensures { result ≡ left_of (course_phase self.now) }
    {
        match self {
            Course::Asked(progress) => progress.left(),
            Course::Least(progress) => progress.left(),
        }
    }
}
