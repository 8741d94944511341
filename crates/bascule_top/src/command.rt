ghost use Rattle.std.specs.Prelude.{◌≡◌, IfSome, None, Some, MatchOption, false, true};
ghost use Rattle.bascule_top.specs.Commands.{Start, are_args, command_of, is_launch, is_name, names_behind, two_names, words_of};
ghost use Rattle.bascule_top.specs.Words.{IsStartable, launch_of, meant};

/// The most bytes of a name.
const LONGEST_NAME: usize = 80;

/// The most further arguments of a program.
const MOST_ARGS: usize = 15;

/// What words ask for.
#[derive(Clone, Copy, Debug)]
pub enum Command<'a> {
    /// The program of this name is to run, with these arguments behind its name.
    Start { name: &'a str, args: &'a [String] },
    /// The assembly text in the first file is to be assembled into the second.
    Asm { text: &'a str, file: &'a str },
    /// The user's file is to be copied to the host's file of the name.
    Put { file: &'a str, name: &'a str },
    /// The host's file of the name is to be copied to the user's file.
    Get { name: &'a str, file: &'a str },
}

/// Whether the text is a name of 1 to 80 bytes.
fn is_short(name: &str) -> bool
    ensures { result ≡ is_name name.now }
{
    !name.is_empty() && name.len() <= LONGEST_NAME
}

/// Whether these are up to 15 arguments of up to 80 bytes each.
fn are_short(args: &[String]) -> bool
    ensures { result ≡ are_args (words_of args.now) }
{
    if args.len() > MOST_ARGS {
        return false;
    }
    for arg in args {
        if arg.len() > LONGEST_NAME {
            return false;
        }
    }
    true
}

/// The command of a word and two names.
fn read_two<'a>(word: &str, first: &'a str, second: &'a str) -> Option<Command<'a>>
    ensures startable { IfSome result IsStartable }
    ensures exact { MatchOption result (two_names word.now first.now second.now ≡ None)
        (λ command. two_names word.now first.now second.now ≡ Some (meant command)) }
{
    if word.as_bytes() == b"asm".as_slice() && !first.is_empty() && !second.is_empty() {
        return Some(Command::Asm {
            text: first,
            file: second,
        });
    }
    if word.as_bytes() == b"put".as_slice() && !first.is_empty() && is_short(second) {
        return Some(Command::Put {
            file: first,
            name: second,
        });
    }
    if word.as_bytes() == b"get".as_slice() && is_short(first) && !second.is_empty() {
        return Some(Command::Get {
            name: first,
            file: second,
        });
    }
    None
}

/// The start of a program, with its arguments behind its name.
fn read_start<'a>(name: &'a str, args: &'a [String]) -> Option<Command<'a>>
    ensures startable { IfSome result IsStartable }
    ensures exact { MatchOption result (is_launch (launch_of name.now args.now) ≡ false)
        (λ command. (is_launch (launch_of name.now args.now) ≡ true)
        × (meant command ≡ Start (launch_of name.now args.now))) }
{
    if is_short(name) && are_short(args) {
        return Some(Command::Start { name, args });
    }
    None
}

/// The command of a word, a name, and one name behind it.
fn read_names<'a>(word: &str, first: &'a str, rest: &'a [String]) -> Option<Command<'a>>
    ensures startable { IfSome result IsStartable }
    ensures exact { MatchOption result (names_behind word.now first.now (words_of rest.now) ≡ None)
        (λ command. names_behind word.now first.now (words_of rest.now) ≡ Some (meant command)) }
{
    match rest {
        [second] => read_two(word, first, second.as_str()),
        _ => None,
    }
}

/// The command that the words are; `None` where they are none.
pub fn read_command(words: &[String]) -> Option<Command<'_>>
    ensures startable { IfSome result IsStartable }
    ensures exact { MatchOption result (command_of (words_of words.now) ≡ None)
        (λ command. command_of (words_of words.now) ≡ Some (meant command)) }
{
    let [word, name, rest @ ..] = words else {
        return None;
    };
    if word.as_bytes() == b"start".as_slice() {
        return read_start(name.as_str(), rest);
    }
    read_names(word.as_str(), name.as_str(), rest)
}
