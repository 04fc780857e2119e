// The laws that the promises of a run stand on.
ghost use Rattle.fc_run.specs.RunLaws.{AreRunLaws};

use fc_spec::{
    added_are_within_limits, folds_into_numbers, phase_ends_are_outputs, phases_write_outputs,
    scripts_have_one_output, searches_are_few,
};

/// All of them.
pub(crate) fn run_laws()
    ensures { AreRunLaws }
{
    phases_write_outputs();
    phase_ends_are_outputs();
    searches_are_few();
    scripts_have_one_output();
    added_are_within_limits();
    folds_into_numbers();
}
