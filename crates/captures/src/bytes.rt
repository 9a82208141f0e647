// Numbers in the bytes of a file. A byte behind the end reads as 0.
ghost use Rattle.std.specs.Prelude.{◌≡◌, ◌-◌, ◌^◌, ◌<◌};
ghost use Rattle.captures.specs.Numbers.{number_at};

use crate::format::ByteOrder;
use octets::read::bytes4;

// The number in the four bytes from a place on.
pub(crate) fn number_at(file: &[u8], order: ByteOrder, place: usize) -> u32
    requires { place < 2 ^ 64 - 3 }
    ensures { result ≡ number_at order file.now place }
{
    let bytes = bytes4(file, place);
    match order {
        ByteOrder::Big => u32::from_be_bytes(bytes),
        ByteOrder::Little => u32::from_le_bytes(bytes),
    }
}
