//! Rows as they are handed in: by themselves, or with the places of what they name.

ghost use Rattle.std.specs.Prelude.{◌≡◌, Option, None, Some};
ghost use Rattle.dex_types.specs.declared.rows.Row.{Row as OneRow};
ghost use Rattle.dex_world.specs.declared.places.RowPlaces.{RowPlaces as PlacesOf};

use dex_types::Row;
use dex_world::RowPlaces;

/// A row as it is handed in: by itself, and then it is looked up where its market and wallets stand; or with the places
/// of these.
pub trait AsRow {
    /// The row.
    ghost is: { Self → OneRow };

    /// The places, where they come with it.
    ghost at: { Self → Option PlacesOf };

    /// The row.
    fn row(&self) -> &Row
        ensures { result.now ≡ is self.now };

    /// The places, where they come with it.
    fn places(&self) -> Option<RowPlaces>
        ensures { result ≡ at self.now };
}

impl AsRow for Row {
    ghost is = { λ row. row };

    ghost at = { λ row. None };

    fn row(&self) -> &Row {
        self
    }

    fn places(&self) -> Option<RowPlaces> {
        None
    }
}

/// A row, and the places of its market and wallets.
#[derive(Clone, Copy)]
pub struct PlacedRow<'a> {
    pub row: &'a Row,
    pub places: &'a RowPlaces,
}

impl<'a> AsRow for PlacedRow<'a> {
    ghost is = { λ it. it.row.now };

    ghost at = { λ it. Some it.places.now };

    fn row(&self) -> &Row {
        self.row
    }

    fn places(&self) -> Option<RowPlaces> {
        Some(*self.places)
    }
}
