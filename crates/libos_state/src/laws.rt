ghost use Rattle.std.specs.Prelude.{◌≡◌, ◌↔◌, ℕ, List, Decides};
ghost use Rattle.bas_edge.specs.Files.{Files, file_of};
ghost use Rattle.bas_names.specs.declared.Rule.{Rule};
ghost use Rattle.bas_names.specs.Names.{sub};
ghost use Rattle.mono_model.specs.Starting.{file_below, file_under};
ghost use Rattle.abi_calls.specs.Objects.{Objects};
ghost use Rattle.libos_state.specs.declared.cont.Cont.{Cont};
ghost use Rattle.libos_state.specs.declared.cont.Stage.{Stage};
ghost use Rattle.libos_state.specs.declared.state.LibOs.{LibOs};
ghost use Rattle.libos_state.specs.Alone.{FitsAlone, FitsService, FitsServices, FitsWorld, fits_alone, fits_service};
ghost use Rattle.libos_state.specs.Fits.{Fits};

/// A library OS fits the objects of a world exactly where it fits by itself, the service in progress fits it by itself,
/// and the objects fit both.
pub fn fits_is_cut()
    ensures { (os : LibOs) (o : Objects) → Fits os o ↔ (FitsAlone os × FitsServices os os.cont × FitsWorld os o os.cont) }
{}

/// A test decides whether a library OS fits by itself, and one whether a service does.
pub fn tests_decide()
    ensures library { (os : LibOs) → Decides (fits_alone os) (FitsAlone os) }
    ensures service { (os : LibOs) (c : Cont) (stage : Stage) → Decides (fits_service os c stage) (FitsService os c stage) }
{}

/// The file that a name leads to through lists of rules is that of the name which they make of it, each used once; a
/// name that they end leads to none.
pub fn file_by_rules()
    ensures { (lists : List (List Rule)) (files : Files) (name : List ℕ)
        → file_under lists files name ≡ file_below (file_of files) (sub lists name) }
{}
