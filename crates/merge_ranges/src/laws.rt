//! The laws of lists of merges: each function does nothing of its own, and its contract is the law.

ghost use Rattle.merge_ranges.specs.Calls.{ListsAreSame};
ghost use Rattle.merge_ranges.specs.Following.{FollowedStayMerges};

use grid_range::{spans_stay_apart, tracks_stay_within};

/// What merges become by a change that tears none of them are merges.
pub fn followed_stay_merges()
    ensures { FollowedStayMerges }
{
    spans_stay_apart();
    tracks_stay_within();
}

/// Two lists that have just the same areas, in the order of merges, are the same.
pub fn lists_are_same()
    ensures { ListsAreSame }
{}
