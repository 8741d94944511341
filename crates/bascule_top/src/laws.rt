ghost use Rattle.std.specs.Prelude.{◌≡◌, Some};
ghost use Rattle.bas_edge.specs.Files.{file_of};
ghost use Rattle.mono_model.specs.Readable.{Readable};
ghost use Rattle.bascule_top.specs.Hello.{hello_name, hello_file, SaysHello};

/// Where the file of `/bin/hi` is the 159 bytes of that program, its run by the machine's definition writes `hi` and
/// a line feed, and exits with 0 after 2 turns.
pub fn hello_runs()
    ensures { (x : Readable) → file_of x.files hello_name ≡ Some hello_file → SaysHello x }
{}
