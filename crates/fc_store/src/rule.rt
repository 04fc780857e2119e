// What holds of the published generation and of what each end knows.
use crate::{Charter, Generation};
use atomic_table::{Join, Split};
use crossbeam_utils::rule::{Outcome, Protocol};
use fc_base::Schema;
use left_right::Absorb;
use std::alloc::AllocError;
use std::sync::Arc;

/// What readers take: a generation, beside what it may be a generation of.
#[derive(Drop)]
pub struct Shown {
    pub generation: Arc<Generation>,
    pub charter: Charter,
}

/// What an end of the store knows. No value of it is made.
pub struct Known {
    /// Whether it knows anything yet.
    pub bound: bool,
    pub schema: Schema,
    pub charter: Charter,
    /// A number that was published.
    pub at: u64,
}

impl Absorb<Arc<Generation>> for Shown {
    ghost use Rattle.std.specs.Arc.{arc_value};
    ghost use Rattle.fc_store.specs.Rule.{content};

    type State = (Charter, Generation);

    ghost state = { content };

    ghost applied = { λ content operation. (content.0, arc_value operation) };

    fn absorb_first(
        &mut self,
        operation: &Arc<Generation>,
        _other: &Shown,
    ) -> Result<(), AllocError> {
        self.generation = Arc::try_clone(operation)?;
        Ok(())
    }
}

/// The rule: what is published is the charter's, and no end knows a higher number.
pub struct Charted;

impl Protocol<Shown, Known> for Charted {
    ghost use Rattle.fc_store.specs.Rule.{Keeps, nothing};

    ghost holds = { Keeps };

    ghost first = { nothing };
}

/// The writer's first step, which publishes what is published and learns what it is.
pub struct Binds;

impl Outcome<Shown, Known> for Binds {
    ghost use Rattle.fc_store.specs.Rule.{binds};

    ghost then = { binds };
}

/// The writer publishes a generation.
pub struct Publishes;

impl Outcome<Shown, Known> for Publishes {
    ghost use Rattle.fc_store.specs.Rule.{publishes};

    ghost then = { publishes };
}

/// A reader takes what is published.
pub struct Pins;

impl Outcome<Shown, Known> for Pins {
    ghost use Rattle.fc_store.specs.Rule.{pins};

    ghost then = { pins };
}

/// The writer tells all that it knows.
pub struct Tells;

impl Split<Known> for Tells {
    ghost left = { λ v. v };

    ghost right = { λ v. v };
}

/// A new reader takes over what the writer told.
pub struct TakesOver;

impl Join<Known> for TakesOver {
    ghost use Rattle.fc_store.specs.Rule.{takes_over, nothing};

    ghost both = { takes_over };

    ghost spent = { nothing };
}
