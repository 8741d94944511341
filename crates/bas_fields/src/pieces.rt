ghost use Rattle.std.specs.Prelude.{◌≡◌, ◌-◌, ◌++◌, min, length, take, drop};
ghost use Rattle.std.specs.Int.{to_le_bytes, w64};

/// Copies the bytes from `from` on to the front of the piece, as many as there are and have room, and returns how
/// many. What the piece holds behind them stays. Takes no memory.
pub fn write_bytes(piece: &mut [u8], bytes: &[u8], from: usize) -> usize
    ensures count { result ≡ min (length piece.old) (length bytes.now - from) }
    ensures written { piece.new ≡ take result (drop from bytes.now) ++ drop result piece.old }
{
    let (_, rest) = bytes.split_at(from.min(bytes.len()));
    let count = piece.len().min(rest.len());
    let (next, _) = rest.split_at(count);
    let (front, _) = piece.split_at_mut(count);
    front.copy_from_slice(next);
    count
}

/// The same of the number's 8 bytes, the lowest byte first: those that `put_u64` adds.
pub fn write_u64(piece: &mut [u8], n: u64, from: usize) -> usize
    ensures count { result ≡ min (length piece.old) (8 - from) }
    ensures written { piece.new ≡ take result (drop from (to_le_bytes w64 n)) ++ drop result piece.old }
{
    write_bytes(piece, &n.to_le_bytes(), from)
}
