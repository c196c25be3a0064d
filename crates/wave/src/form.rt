// The header of a stem.
ghost use Rattle.std.specs.Prelude.{◌≡◌, ◌≤◌};
ghost use Rattle.wave.specs.Form.{header_of};

// The 44 bytes: those that every stem has, with a dot for each of the others, and then the four numbers in their places, the lowest byte first.
pub(crate) fn header(rate: u32, size: u32) -> [u8; 44]
    requires rate { rate ≤ 384000 }
    requires size { size ≤ 2097152 }
    ensures { result ≡ header_of rate size }
{
    let mut bytes = *b"RIFF....WAVEfmt \x10\0\0\0\x01\0\x01\0........\x02\0\x10\0data....";
    bytes[4..8].copy_from_slice(&(36 + size).to_le_bytes());
    bytes[24..28].copy_from_slice(&rate.to_le_bytes());
    bytes[28..32].copy_from_slice(&(2 * rate).to_le_bytes());
    bytes[40..44].copy_from_slice(&size.to_le_bytes());
    bytes
}
