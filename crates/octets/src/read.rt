// Bytes read at a place, and the numbers that they spell, the highest byte first.
ghost use Rattle.std.specs.Prelude.{◌≡◌, drop};
ghost use Rattle.octets.specs.Reading.{byte_at, bytes4, number2, number4};

/// The byte at a place; 0 behind the end. Nothing is refused.
pub fn byte_at(bytes: &[u8], place: usize) -> u8
    ensures { result ≡ byte_at bytes.now place }
{
    bytes.get(place).copied().unwrap_or(0)
}

/// The four bytes from a place on, each as `byte_at` reads it. Nothing is refused.
pub fn bytes4(bytes: &[u8], place: usize) -> [u8; 4]
    ensures { result ≡ bytes4 bytes.now place }
{
    let from = bytes_from(bytes, place);
    [
        byte_at(from, 0),
        byte_at(from, 1),
        byte_at(from, 2),
        byte_at(from, 3),
    ]
}

// The bytes from a place on: none behind the end.
fn bytes_from(bytes: &[u8], place: usize) -> &[u8]
    ensures { result.now ≡ drop place bytes.now }
{
    bytes.get(place..).unwrap_or(&[])
}

/// The number in the two bytes from a place on. Nothing is refused.
pub fn number2(bytes: &[u8], place: usize) -> u16
    ensures { result ≡ number2 bytes.now place }
{
    let from = bytes_from(bytes, place);
    u16::from_be_bytes([byte_at(from, 0), byte_at(from, 1)])
}

/// The number in the four bytes from a place on. Nothing is refused.
pub fn number4(bytes: &[u8], place: usize) -> u32
    ensures { result ≡ number4 bytes.now place }
{
    u32::from_be_bytes(bytes4(bytes, place))
}
