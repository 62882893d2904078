//! Laws over the definitions. Each function here does nothing: its contract holds of every fill.
ghost use Rattle.std.specs.Prelude.{◌≡◌, ◌||◌, ◌&&◌, ◌==◌, ℕ, true, IsSome, is_some, List};
ghost use Rattle.std.specs.List.{concat};
ghost use Rattle.map_core.specs.Layouts.{local_index, stands};
ghost use Rattle.crs_graph.specs.Ascending.{IsAscending};
ghost use Rattle.crs_graph.specs.Fills.{all_columns, has_place, with_place, Fill, IsFill};

/// The columns of a fill ascend, each once, and are those of its rows.
pub fn columns_law()
    ensures ascend { (f : Fill) → IsAscending (all_columns f) }
    ensures same { (f : Fill) (col : ℕ) → stands col (all_columns f) ≡ stands col (concat f.columns) }
{}

/// A fill is a set of places: the fill with a place has this place and those that it had.
pub fn places_law()
    ensures places { (f : Fill) (row col r c : ℕ) → IsFill f → is_some (local_index f.rows row) ≡ true
        → has_place (with_place f row col) r c ≡ (((row == r) && (col == c)) || has_place f r c) }
{}
