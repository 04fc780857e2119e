// The values of fields.
ghost use Rattle.std.specs.Prelude.{◌≡◌, IfOk, refl};
ghost use Rattle.std.specs.Cmp.{partial_equiv_from_equiv};
ghost use Rattle.std.specs.Ordering.{is_lt, on, as_partial_cmp};
ghost use Rattle.fc_spec.specs.documents.Val.{val_cmp, same_val};
ghost use Rattle.fc_base.specs.View.{val_view};
ghost use Rattle.fc_base.specs.ValOrder.{vals_total, vals_equiv, vals_po};

use crate::{Name, WantMemory};
use std::alloc::Global;
use std::cmp::Ordering;

/// A value of a field. Values stand in index order: integers by their number, texts by their bytes,
/// each integer before each text.
#[derive(Debug, Drop)]
pub enum Val {
    Text(Name),
    Long(i64),
}

impl Val {
    /// Whether it comes first in index order.
    pub fn before(&self, other: &Val) -> bool
        ensures { result ≡ is_lt (val_cmp (val_view self.now) (val_view other.now)) }
    {
        self.cmp(other).is_lt()
    }

    /// Another value that is the same.
    pub fn copy(&self, alloc: Global) -> Result<Val, WantMemory>
        ensures { IfOk result (λ val. val ≡ self.now) }
    {
        Ok(match self {
            Val::Text(name) => Val::Text(name.copy(alloc)?),
            Val::Long(number) => Val::Long(*number),
        })
    }
}

impl PartialEq for Val {
    ghost eq = { on val_view same_val };

    ghost laws = { partial_equiv_from_equiv vals_equiv };

    fn eq(&self, other: &Val) -> bool {
        self.cmp(other).is_eq()
    }
}

impl Eq for Val {
    ghost laws = { vals_equiv };
}

impl Ord for Val {
    ghost cmp = { on val_view val_cmp };

    ghost total = { vals_total };

    ghost matches_partial_cmp = { λ a b. refl };

    ghost matches_eq = { λ a b. refl };

    fn cmp(&self, other: &Val) -> Ordering {
        match (self, other) {
            (Val::Long(a), Val::Long(b)) => a.cmp(b),
            (Val::Long(_), Val::Text(_)) => Ordering::Less,
            (Val::Text(_), Val::Long(_)) => Ordering::Greater,
            (Val::Text(a), Val::Text(b)) => a.cmp(b),
        }
    }
}

impl PartialOrd for Val {
    ghost partial_cmp = { as_partial_cmp (on val_view val_cmp) };

    ghost laws = { vals_po };

    fn partial_cmp(&self, other: &Val) -> Option<Ordering> {
        Some(self.cmp(other))
    }
}
