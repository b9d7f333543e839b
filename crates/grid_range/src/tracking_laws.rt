//! Laws of `track`, `place` and `Area::follow`: each function does nothing, and its contract is the law. A caller
//! that knows what its bands are by numbers has by them what they denote.

ghost use Rattle.grid_range.specs.TrackingLaws.{TracksAll, TracksExactly, PlacesAll, PlacesExactly, TracksStayWithin, PlacesStayBelow, AreasStayWithin, PlacesStayApart, TearsWhereTorn, TornOrWhole, SpansStayApart};

/// What `track` gives a band stands for what the band's lines are followed to.
#[tactic(auto, using(crate::proofs::Exactly::tracks_all))]
pub fn tracks_all()
    ensures { TracksAll }
{}

/// No other answer does: the lines determine it.
#[tactic(auto, using(crate::proofs::Exactly::tracks_exactly))]
pub fn tracks_exactly()
    ensures { TracksExactly }
{}

/// What `place` gives a line is where the line is, whatever its name.
#[tactic(auto, using(crate::proofs::Exactly::places_all))]
pub fn places_all()
    ensures { PlacesAll }
{}

/// No other answer is.
#[tactic(auto, using(crate::proofs::Exactly::places_exactly))]
pub fn places_exactly()
    ensures { PlacesExactly }
{}

/// What `track` gives is within the lines that there are after the change.
#[tactic(auto, using(crate::proofs::Exactly::tracks_stay_within))]
pub fn tracks_stay_within()
    ensures { TracksStayWithin }
{}

/// What `place` gives is below their number.
#[tactic(auto, using(crate::proofs::Exactly::places_stay_below))]
pub fn places_stay_below()
    ensures { PlacesStayBelow }
{}

/// What `Area::follow` gives is within them.
#[tactic(auto, using(crate::proofs::Exactly::areas_stay_within))]
pub fn areas_stay_within()
    ensures { AreasStayWithin }
{}

/// No two lines have one place after a change.
pub fn places_stay_apart()
    ensures { PlacesStayApart }
{}

/// What `Change::tears` finds by numbers is what it says.
#[tactic(auto, using(crate::proofs::Tearing::tears_where_torn))]
pub fn tears_where_torn()
    ensures { TearsWhereTorn }
{}

/// A move tears a band, or leaves it whole.
#[tactic(auto, using(crate::proofs::Tearing::torn_or_whole))]
pub fn torn_or_whole()
    ensures { TornOrWhole }
{}

/// Bands with both ends that share no line, and that the change doesn't tear, come to share none.
#[tactic(auto, using(crate::proofs::Landing::spans_stay_apart))]
pub fn spans_stay_apart()
    ensures { SpansStayApart }
{}
