ghost use Rattle.std.specs.Prelude.{◌≡◌, [], ◌↔◌};
ghost use Rattle.abi_calls.specs.declared.call.Call.{Call};
ghost use Rattle.abi_calls.specs.declared.reply.Reply.{Reply};
ghost use Rattle.abi_calls.specs.Objects.{Objects};
ghost use Rattle.abi_calls.specs.World.{Contents, world_of};
ghost use Rattle.abi_calls.specs.Abi.{Abi};
ghost use Rattle.abi_calls.specs.Renaming.{Renaming, renamed_objects, renamed_turn};
ghost use Rattle.abi_calls.specs.Rules.{AnswersThrough};
ghost use Rattle.abi_calls.specs.Turn.{world_turn};

/// A turn of objects under other numbers is their turn, under these numbers.
pub fn turn_keeps_names()
    ensures { (names : Renaming) (o : Objects) → world_turn (renamed_objects names.to o) ≡ renamed_turn names.to (world_turn o) }
{}

/// Where no list of rules stands above the objects, a call is answered by its row.
pub fn rules_of_a_host()
    ensures { (o o' : Objects) (x y : Contents) (call : Call) (reply : Reply) → AnswersThrough (record { rules = []; objects = o }) x call reply (record { rules = []; objects = o' }) y ↔ Abi (world_of o x) call reply (world_of o' y) }
{}
