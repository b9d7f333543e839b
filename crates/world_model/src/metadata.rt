//! Laws of the developer metadata of a spreadsheet: each function does nothing of its own, and its contract is the law.

ghost use Rattle.world_model.specs.MetadataLaws.{LinesFollowAlone, MetadataIsSet};

use grid_range::{bands_stay, lost_where_gone};

/// Items of metadata that a spreadsheet gets are those of the lines at their places, and it stays sound.
pub fn metadata_is_set()
    ensures { MetadataIsSet }
{}

/// A line where an item lies is followed as the band is that has the line alone.
pub fn metadata_lines_follow()
    ensures { LinesFollowAlone }
{
    bands_stay();
    lost_where_gone();
}
