ghost use Rattle.std.specs.Prelude.{◌≡◌, ◌<◌, [], slice_index_or};
ghost use Rattle.asm_text.specs.Registers.{x_names, usual_names, names_register, register_of};

/// The name of register `n` by its number.
fn x_name(n: u8) -> &'static [u8]
    requires { n < 32 }
    ensures { result.now ≡ slice_index_or x_names n [] }
{
    match n {
        0 => b"x0",
        1 => b"x1",
        2 => b"x2",
        3 => b"x3",
        4 => b"x4",
        5 => b"x5",
        6 => b"x6",
        7 => b"x7",
        8 => b"x8",
        9 => b"x9",
        10 => b"x10",
        11 => b"x11",
        12 => b"x12",
        13 => b"x13",
        14 => b"x14",
        15 => b"x15",
        16 => b"x16",
        17 => b"x17",
        18 => b"x18",
        19 => b"x19",
        20 => b"x20",
        21 => b"x21",
        22 => b"x22",
        23 => b"x23",
        24 => b"x24",
        25 => b"x25",
        26 => b"x26",
        27 => b"x27",
        28 => b"x28",
        29 => b"x29",
        30 => b"x30",
        _ => b"x31",
    }
}

/// The usual name of register `n`.
fn usual_name(n: u8) -> &'static [u8]
    requires { n < 32 }
    ensures { result.now ≡ slice_index_or usual_names n [] }
{
    match n {
        0 => b"zero",
        1 => b"ra",
        2 => b"sp",
        3 => b"gp",
        4 => b"tp",
        5 => b"t0",
        6 => b"t1",
        7 => b"t2",
        8 => b"s0",
        9 => b"s1",
        10 => b"a0",
        11 => b"a1",
        12 => b"a2",
        13 => b"a3",
        14 => b"a4",
        15 => b"a5",
        16 => b"a6",
        17 => b"a7",
        18 => b"s2",
        19 => b"s3",
        20 => b"s4",
        21 => b"s5",
        22 => b"s6",
        23 => b"s7",
        24 => b"s8",
        25 => b"s9",
        26 => b"s10",
        27 => b"s11",
        28 => b"t3",
        29 => b"t4",
        30 => b"t5",
        _ => b"t6",
    }
}

fn names_register(text: &[u8], n: u8) -> bool
    requires { n < 32 }
    ensures { result ≡ names_register text.now n }
{
    text == x_name(n) || text == usual_name(n) || n == 8 && text == b"fp".as_slice()
}

/// The number of the register that the text names.
pub fn register_of(text: &[u8]) -> Option<u8>
    ensures { result ≡ register_of text.now }
{
    for n in 0..32 {
        if names_register(text, n) {
            return Some(n);
        }
    }
    None
}
