ghost use Rattle.std.specs.Prelude.{ℕ, Decides};
ghost use Rattle.guest_space.specs.Space.{Space};
ghost use Rattle.mono_model.specs.Mapping.{HasNoPages, IsLowestFreeIn, is_free, lowest_free};

/// A run is free exactly where none of its pages is there.
pub fn free_runs_have_no_pages()
    ensures { (s : Space) (page count : ℕ) → Decides (is_free s page count) (HasNoPages s page count) }
{}

/// The lowest free run of so many pages, from a page on, is free, and none below it is; there is none only where no such
/// run is free.
pub fn lowest_free_run_is_lowest()
    ensures { (s : Space) (from count : ℕ) → IsLowestFreeIn s from count (lowest_free s from count) }
{}
