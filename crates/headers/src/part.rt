ghost use Rattle.std.specs.Prelude.{length};
ghost use Rattle.headers.specs.Part.{field_answer, payload_answer, SaysField, SaysPayload};
ghost use Rattle.headers.specs.Table.{standard_table};

use crate::faults::PartFault;
use crate::kinds::Kind;
use crate::mark::Mark;
use crate::table::KindTable;

/// The field of the number of the header that the mark names, as the part of the packet where it lies;
/// `Ok(None)` if the kind has no field of that number, wherever the mark lies. Refused if the mark's
/// kind is over 10, or else if some of the field's own bytes lie outside the packet. The mark's node
/// and length are not looked at.
pub fn field<'a>(
    packet: &'a [u8],
    mark: &Mark,
    number: usize,
) -> Result<Option<&'a [u8]>, PartFault>
    ensures { SaysField packet.entry result (field_answer standard_table (length packet.now) mark.now number) }
{
    field_in(&KindTable::standard(), packet, mark, number)
}

/// As `field`, with the kinds' fields taken from the table that is given.
pub fn field_in<'a>(
    table: &KindTable,
    packet: &'a [u8],
    mark: &Mark,
    number: usize,
) -> Result<Option<&'a [u8]>, PartFault>
    ensures { SaysField packet.entry result (field_answer table.now (length packet.now) mark.now number) }
{
    let kind = Kind::try_from(mark.kind)?;
    let Some(place) = table.field(kind, number) else {
        return Ok(None);
    };
    let from = usize::from(mark.offset) + usize::from(place.offset);
    let length = usize::from(place.length);
    // By a test and no `get`, which was tried, here and in `payload`: what `get` hands out is not told
    // to lie in the packet's own memory.
    if from + length > packet.len() {
        return Err(PartFault::FieldOutside);
    }
    Ok(Some(&packet[from..from + length]))
}

/// The part of the packet from a place to the packet's end: empty at the end.
/// Refused behind the end.
pub fn payload<'a>(packet: &'a [u8], from: usize) -> Result<&'a [u8], PartFault>
    ensures { SaysPayload packet.entry result (payload_answer (length packet.now) from) }
{
    if from > packet.len() {
        return Err(PartFault::PayloadOutside);
    }
    Ok(&packet[from..])
}
