// The steps to a wanted bucket, one by one.
ghost use Rattle.std.specs.Prelude.{◌≡◌, ◌∷◌, [], MatchOption};
ghost use Rattle.fc_spec.specs.messages.Message.{way_of};
ghost use Rattle.fc_partial.specs.View.{key_view};
ghost use Rattle.fc_refine.specs.AskView.{want_view};
ghost use Rattle.fc_told.specs.Steps.{steps_view};

use fc_partial::Key;
use fc_refine::{Step, Want};

/// The steps that are left: those of the path, and behind them the bucket's own.
#[derive(Drop)]
pub(crate) struct StepsLeft<'a> {
    path: &'a [Step],
    own: Option<&'a Want>,
}

impl<'a> StepsLeft<'a> {
    /// All of them.
    pub(crate) fn to(want: &'a Want) -> StepsLeft<'a>
        ensures { steps_view result ≡ way_of (want_view want.now) }
    {
        StepsLeft {
            path: want.way(),
            own: Some(want),
        }
    }

    /// The node and the key of the next, and those behind it.
    pub(crate) fn next(self) -> Option<(u32, &'a Key, StepsLeft<'a>)>
        ensures { MatchOption result (steps_view self.entry ≡ [])
            (λ next. steps_view self.entry ≡ record { node = next.0; key = key_view next.1.now } ∷ steps_view next.2) }
    {
        let StepsLeft { path, own } = self;
        if let Some((step, path)) = path.split_first() {
            return Some((step.node, &step.key, StepsLeft { path, own }));
        }
        let want = own?;
        let none = StepsLeft {
            path: &[],
            own: None,
        };
        Some((want.node, &want.key, none))
    }
}
