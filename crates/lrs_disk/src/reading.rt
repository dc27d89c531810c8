ghost use Rattle.std.specs.Prelude.{◌≡◌, ◌-◌, length, take, drop, min};

/// Copies what stands from an offset on, as much as there is room for, and answers how much. So a disk of these bytes
/// reads.
pub fn copied(bytes: &[u8], offset: u64, into: &mut [u8]) -> usize
    ensures number { result ≡ min (length into.old) (length bytes.now - offset) }
    ensures bytes { take result into.new ≡ take result (drop offset bytes.now) }
{
    if offset >= bytes.len() as u64 {
        return 0;
    }
    let rest = &bytes[offset as usize..];
    let number = rest.len().min(into.len());
    into[..number].copy_from_slice(&rest[..number]);
    number
}
