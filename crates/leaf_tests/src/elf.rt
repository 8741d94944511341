use elf_loader::{ElfError, LoadError, Run, load};
use std::alloc::{AllocError, Global};
use std::process::Abort;
use std::test::Fail;

/// One segment of all rights at 0x10078: nine instructions and three bytes of text.
const HELLO: [u8; 159] = [
    0x7f, 0x45, 0x4c, 0x46, 0x02, 0x01, 0x01, 0x00, 0x00, 0x00, 0x00, 0x00, 0x00, 0x00, 0x00, 0x00,
    0x02, 0x00, 0xf3, 0x00, 0x01, 0x00, 0x00, 0x00, 0x78, 0x00, 0x01, 0x00, 0x00, 0x00, 0x00, 0x00,
    0x40, 0x00, 0x00, 0x00, 0x00, 0x00, 0x00, 0x00, 0x00, 0x00, 0x00, 0x00, 0x00, 0x00, 0x00, 0x00,
    0x00, 0x00, 0x00, 0x00, 0x40, 0x00, 0x38, 0x00, 0x01, 0x00, 0x00, 0x00, 0x00, 0x00, 0x00, 0x00,
    0x01, 0x00, 0x00, 0x00, 0x07, 0x00, 0x00, 0x00, 0x78, 0x00, 0x00, 0x00, 0x00, 0x00, 0x00, 0x00,
    0x78, 0x00, 0x01, 0x00, 0x00, 0x00, 0x00, 0x00, 0x78, 0x00, 0x01, 0x00, 0x00, 0x00, 0x00, 0x00,
    0x27, 0x00, 0x00, 0x00, 0x00, 0x00, 0x00, 0x00, 0x27, 0x00, 0x00, 0x00, 0x00, 0x00, 0x00, 0x00,
    0x00, 0x10, 0x00, 0x00, 0x00, 0x00, 0x00, 0x00, 0x13, 0x05, 0x10, 0x00, 0x97, 0x05, 0x00, 0x00,
    0x93, 0x85, 0x05, 0x02, 0x13, 0x06, 0x30, 0x00, 0x93, 0x08, 0x00, 0x04, 0x73, 0x00, 0x00, 0x00,
    0x13, 0x05, 0x00, 0x00, 0x93, 0x08, 0xd0, 0x05, 0x73, 0x00, 0x00, 0x00, 0x68, 0x69, 0x0a,
];

const LIMIT: u64 = ((1 << 26) - 16) * 4096;

/// A file made from `HELLO` by other bytes at some places.
fn changed(alloc: Global, changes: &[(usize, u64, usize)]) -> Result<Vec<u8>, AllocError> {
    let mut file = HELLO.to_vec(alloc)?;
    for (at, number, size) in changes {
        put(&mut file, *at, *number, *size);
    }
    Ok(file)
}

/// Writes the low `size` bytes of a number, the lowest first.
fn put(file: &mut Vec<u8>, at: usize, number: u64, size: usize) {
    for (i, byte) in number.to_le_bytes().iter().take(size).enumerate() {
        if at < file.len() && i < file.len() - at {
            file[at + i] = *byte;
        }
    }
}

/// Stops where the loader judges a file otherwise.
fn want(rt: &impl Abort, alloc: Global, file: &[u8], wanted: Result<(), ElfError>) {
    let refusal = load(alloc, file).err();
    assert_eq!(rt; refusal, wanted.err().map(LoadError::Refused));
}

#[test]
fn cut_files(rt: HostRuntime) {
    for len in 0..HELLO.len() {
        let refusal = match len {
            0..64 => ElfError::Short,
            64..120 => ElfError::Table,
            _ => ElfError::Segment(0),
        };
        want(&rt, rt.alloc(), &HELLO[..len], Err(refusal));
    }
    want(&rt, rt.alloc(), &HELLO, Ok(()));
}

#[test]
fn changed_files(rt: HostRuntime) -> Result<(), Fail> {
    let alloc = rt.alloc();
    let most = 1024 * 4096 - 0x10078;
    let cases: [(&[(usize, u64, usize)], Result<(), ElfError>); 29] = [
        (&[(0, 0x7e, 1)], Err(ElfError::Magic)),
        (&[(3, 0x47, 1), (4, 1, 1)], Err(ElfError::Magic)),
        (&[(4, 1, 1), (5, 2, 1)], Err(ElfError::Class)),
        (&[(5, 2, 1), (16, 3, 2)], Err(ElfError::Order)),
        (&[(16, 3, 2), (18, 62, 2)], Err(ElfError::Kind)),
        (&[(18, 62, 2), (54, 55, 2)], Err(ElfError::Machine)),
        (&[(54, 55, 2), (64, 3, 4)], Err(ElfError::Table)),
        (&[(32, u64::MAX, 8)], Err(ElfError::Table)),
        (&[(32, 104, 8)], Err(ElfError::Table)),
        (
            &[(56, 0, 2), (54, 0, 2), (32, u64::MAX, 8)],
            Err(ElfError::Entry),
        ),
        (&[(64, 3, 4), (104, 0, 8)], Err(ElfError::Interp)),
        (&[(64, 2, 4)], Err(ElfError::Entry)),
        (&[(104, 0, 8)], Err(ElfError::Entry)),
        (&[(104, 38, 8)], Err(ElfError::Segment(0))),
        (&[(72, 121, 8)], Err(ElfError::Segment(0))),
        (&[(72, u64::MAX, 8)], Err(ElfError::Segment(0))),
        (&[(72, u64::MAX, 8), (96, 0, 8)], Ok(())),
        (
            &[(96, u64::MAX, 8), (104, u64::MAX, 8)],
            Err(ElfError::Segment(0)),
        ),
        (&[(80, 0xfff, 8)], Err(ElfError::Segment(0))),
        (&[(80, 0x1000, 8), (24, 0x1000, 8)], Ok(())),
        (&[(80, u64::MAX, 8)], Err(ElfError::Segment(0))),
        (&[(80, LIMIT - 39, 8), (24, LIMIT - 40, 8)], Ok(())),
        (&[(80, LIMIT - 38, 8)], Err(ElfError::Segment(0))),
        (&[(104, LIMIT - 0x10078, 8)], Err(ElfError::Big)),
        (&[(104, most, 8)], Ok(())),
        (&[(104, most + 1, 8), (24, 2, 8)], Err(ElfError::Big)),
        (&[(24, 0x1007a, 8)], Err(ElfError::Entry)),
        (&[(24, 0x11000, 8)], Err(ElfError::Entry)),
        (&[(68, 6, 4)], Err(ElfError::Entry)),
    ];
    for (changes, wanted) in cases {
        want(&rt, alloc, changed(alloc, changes)?.as_slice(), wanted);
    }
    Ok(())
}

/// A file of these segments, each with its flags, place in the file, address, and sizes in the file and in
/// memory. Its first bytes are those of `HELLO`, and its last 8 bytes are 1 to 8.
fn of_segments(
    alloc: Global,
    segments: &[(u64, u64, u64, u64, u64)],
) -> Result<Vec<u8>, AllocError> {
    let mut file = HELLO[..64].to_vec(alloc)?;
    put(&mut file, 56, segments.len() as u64, 2);
    for (flags, offset, address, file_size, memory_size) in segments {
        let at = file.len();
        file.extend_from_slice(&[0; 56])?;
        put(&mut file, at, 1, 4);
        put(&mut file, at + 4, *flags, 4);
        put(&mut file, at + 8, *offset, 8);
        put(&mut file, at + 16, *address, 8);
        put(&mut file, at + 32, *file_size, 8);
        put(&mut file, at + 40, *memory_size, 8);
    }
    file.extend_from_slice(&[1, 2, 3, 4, 5, 6, 7, 8])?;
    Ok(file)
}

/// Stops where a run lies otherwise, or has other bytes from a place on.
fn want_run(rt: &impl Abort, run: &Run, place: (u64, u8, usize), at: usize, bytes: &[u8]) {
    assert_eq!(rt; (run.page, run.rights, run.bytes.len()), place);
    assert_eq!(rt;
        run.bytes.as_slice().get(at..at.saturating_add(bytes.len())),
        Some(bytes)
    );
}

#[test]
fn shared_pages(rt: HostRuntime) -> Result<(), Fail> {
    let alloc = rt.alloc();
    // Above the code's page, which is shared with one to write, lies a page to write, and behind a gap two
    // to read, by two segments and around an empty one.
    let segments = [
        (4, 344, 0x14000, 1, 1),
        (5, 344, 0x10078, 4, 4),
        (4, 348, 0x13ffe, 2, 2),
        (6, 346, 0x1007c, 4, 0x1000),
        (7, 0, 0x14000, 0, 0),
    ];
    let program = load(alloc, of_segments(alloc, &segments)?.as_slice())?;
    assert_eq!(rt;
        (program.entry, program.end, program.runs.len()),
        (0x10078, 0x15000, 3)
    );
    let expected: [(u64, u8, usize, usize, &[u8]); 3] = [
        (0x10, 7, 4096, 0x77, &[0, 1, 2, 3, 4, 3, 4, 5, 6, 0]),
        (0x11, 3, 4096, 0x77, &[0, 0, 0, 0, 0, 0, 0, 0, 0, 0]),
        (0x13, 1, 8192, 0xffd, &[0, 5, 6, 1, 0, 0, 0, 0, 0, 0]),
    ];
    for (run, (page, rights, size, at, bytes)) in program.runs.as_slice().iter().zip(expected) {
        want_run(&rt, run, (page, rights, size), at, bytes);
    }
    Ok(())
}

#[test]
fn overlaps(rt: HostRuntime) -> Result<(), Fail> {
    let alloc = rt.alloc();
    let overlap = Err(ElfError::Overlap(1));
    let cases = [
        ([(7, 0, 0x10078, 4, 4), (7, 0, 0x1007c, 4, 4)], Ok(())),
        ([(7, 0, 0x10078, 4, 4), (7, 0, 0x1007b, 4, 4)], overlap),
        ([(7, 0, 0x10078, 4, 4), (7, 0, 0x10074, 4, 4)], Ok(())),
        ([(7, 0, 0x10078, 4, 4), (7, 0, 0x10074, 4, 5)], overlap),
        ([(7, 0, 0x10078, 4, 4), (7, 0, 0x1007a, 0, 1)], overlap),
        ([(7, 0, 0x10078, 4, 4), (7, 0, 0x1007a, 0, 0)], Ok(())),
    ];
    for (segments, wanted) in cases {
        want(
            &rt,
            alloc,
            of_segments(alloc, &segments)?.as_slice(),
            wanted,
        );
    }
    Ok(())
}
