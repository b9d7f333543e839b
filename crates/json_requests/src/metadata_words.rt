ghost use Rattle.json_requests.specs.Metadata.{location_type_named, strategy_named, visibility_named};

use crate::MatchingStrategy;
use dev_metadata::{SpotKind, VisibilityKind};
use json_shapes::Words;

/// The words of DeveloperMetadataLocationType.
#[derive(Clone, Copy)]
pub(crate) struct LocationTypes;

impl Words for LocationTypes {
    type Output = SpotKind;

    ghost table = { λ _. location_type_named };

    fn named(&self, name: &str) -> Option<SpotKind> {
        match name {
            "ROW" => Some(SpotKind::Row),
            "COLUMN" => Some(SpotKind::Column),
            "SHEET" => Some(SpotKind::Sheet),
            "SPREADSHEET" => Some(SpotKind::Spreadsheet),
            _ => None,
        }
    }
}

/// The words of DeveloperMetadataLocationMatchingStrategy.
#[derive(Clone, Copy)]
pub(crate) struct Strategies;

impl Words for Strategies {
    type Output = MatchingStrategy;

    ghost table = { λ _. strategy_named };

    fn named(&self, name: &str) -> Option<MatchingStrategy> {
        match name {
            "EXACT_LOCATION" => Some(MatchingStrategy::Exact),
            "INTERSECTING_LOCATION" => Some(MatchingStrategy::Intersecting),
            _ => None,
        }
    }
}

/// The words of DeveloperMetadataVisibility.
#[derive(Clone, Copy)]
pub(crate) struct Visibilities;

impl Words for Visibilities {
    type Output = VisibilityKind;

    ghost table = { λ _. visibility_named };

    fn named(&self, name: &str) -> Option<VisibilityKind> {
        match name {
            "DOCUMENT" => Some(VisibilityKind::Document),
            "PROJECT" => Some(VisibilityKind::Project),
            _ => None,
        }
    }
}
