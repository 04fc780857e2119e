// Lists of top values, one for each exact facet.
ghost use Rattle.std.specs.Prelude.{◌≡◌};
ghost use Rattle.fc_spec.specs.replies.Tops as definition;
ghost use Rattle.fc_replaced.specs.TopsView.{tops_view, vals_view};

use fc_base::Val;

/// The values of the first list; none where there is no list.
pub(crate) fn first_list(tops: &[Vec<Val>]) -> &[Val]
    ensures { vals_view result.now ≡ definition.first_list (tops_view tops.now) }
{
    match tops.split_first() {
        Some((first, _)) => first,
        None => &[],
    }
}

/// The lists behind those that a facet takes: it takes the first where it is exact, else none.
pub(crate) fn lists_after(is_taken: bool, tops: &[Vec<Val>]) -> &[Vec<Val>]
    ensures { tops_view result.now ≡ definition.lists_after is_taken (tops_view tops.now) }
{
    if !is_taken {
        return tops;
    }
    match tops.split_first() {
        Some((_, after)) => after,
        None => tops,
    }
}
