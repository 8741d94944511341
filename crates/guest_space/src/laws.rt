ghost use Rattle.std.specs.Prelude.{◌≡◌, ◌↔◌, ◌≤◌, ℕ, List, None};
ghost use Rattle.std.specs.List.{All};
ghost use Rattle.rv_core.specs.Memory.{Memory};
ghost use Rattle.guest_space.specs.declared.Extent.{Extent};
ghost use Rattle.guest_space.specs.Space.{IsSpace, Space, protected, with_memory, with_run, without_run};
ghost use Rattle.guest_space.specs.Run.{first_missing};
ghost use Rattle.guest_space.specs.Regions.{AreRegions, AreRegionsWithBytes, IsExtentOfProcess, regions, regions_with_bytes, space_from, with_extent, without_pages};

/// The regions of a space are the one list of extents that is maximal and has just its pages, each with its
/// rights; they are of pages that a process may have where the space is.
pub fn one_list_of_regions()
    ensures only { (s : Space) (extents : List Extent) → (AreRegions s extents ↔ (extents ≡ regions s)) }
    ensures of_process { (s : Space) → IsSpace s → All IsExtentOfProcess (regions s) }
{}

/// The regions of a space after its pages change, from those before.
pub fn regions_after_changes()
    ensures added { (s : Space) (e : Extent) → 1 ≤ e.count
        → regions (with_run s e.page e.count e.rights) ≡ with_extent e (regions s) }
    ensures removed { (s : Space) (page count : ℕ)
        → regions (without_run s page count) ≡ without_pages page count (regions s) }
    ensures protected { (s : Space) (e : Extent) → 1 ≤ e.count → first_missing s e.page e.count ≡ None
        → regions (protected s e.page e.count e.rights) ≡ with_extent e (regions s) }
    ensures written { (s : Space) (m : Memory) → regions (with_memory s m) ≡ regions s }
{}

/// Regions with their bytes say all of a space: it is made again from its own, and gives again those that it is
/// made from.
pub fn space_of_regions()
    ensures again { (s : Space) → IsSpace s → space_from (regions_with_bytes s) ≡ s }
    ensures back { (regions : List (Extent × List ℕ))
        → AreRegionsWithBytes regions → regions_with_bytes (space_from regions) ≡ regions }
{}
