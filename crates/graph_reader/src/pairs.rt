// The file's shape, its pairs, and the records that they name.
ghost use Rattle.std.specs.Prelude.{◌≡◌, ◌+◌, ◌<◌, ◌≤◌, ◌^◌, true, length, None};
ghost use Rattle.refusals.specs.Searching.{fault_of};
ghost use Rattle.graph_reader.specs.Files.{offset, size, begins, pair_right, record_at, shape_fault, pair_fault, byte_fault};

use crate::fault::FileFault;
use crate::read::MOST_BYTES;
use crate::record::check_record;
use octets::read::{byte_at, number2};

// Refused by 1: the size, the node count or byte 1.
pub(crate) fn check_shape(file: &[u8]) -> Result<(), FileFault>
    ensures { fault_of result ≡ shape_fault file.now }
{
    if file.len() < 2 || file.len() > MOST_BYTES {
        return Err(FileFault::Shape);
    }
    if file[0] == 0 || file[0] > 32 || file[1] != 0 {
        return Err(FileFault::Shape);
    }
    Ok(())
}

// The pair of a node: it says where the node's record begins in the file, and how long it is.
#[derive(Clone, Copy)]
pub(crate) struct Pair<'a> {
    pub(crate) file: &'a [u8],
    pub(crate) node: u8,
}

impl<'a> Pair<'a> {
    // The pair of a node of the file.
    pub(crate) fn of(file: &'a [u8], node: u8) -> Pair<'a>
        ensures file { result.file.now ≡ file.now }
        ensures node { result.node ≡ node }
    {
        Pair { file, node }
    }

    // Where the record begins, by the pair.
    fn begin(&self) -> usize
        ensures is { result ≡ offset self.now.file.now self.now.node }
        ensures brief { result < 2 ^ 16 }
    {
        usize::from(number2(self.file, 2 + 4 * usize::from(self.node)))
    }

    // How long the record is, by the pair.
    fn size(&self) -> usize
        ensures is { result ≡ size self.now.file.now self.now.node }
        ensures brief { result < 2 ^ 16 }
    {
        usize::from(number2(self.file, 4 + 4 * usize::from(self.node)))
    }

    // Where the record ends, by the pair.
    fn end(&self) -> usize
        ensures { result ≡ offset self.now.file.now self.now.node + size self.now.file.now self.now.node }
    {
        self.begin() + self.size()
    }

    // Where the record has to begin: behind the pairs, or where the record before it ends.
    fn due(&self) -> usize
        ensures { result ≡ begins self.now.file.now self.now.node }
    {
        if self.node == 0 {
            return 2 + 4 * usize::from(byte_at(self.file, 0));
        }
        Pair::of(self.file, self.node - 1).end()
    }

    // Whether the pair says where the node's record lies.
    #[tactic(auto, unfolding(crate::specs::Files::pair_right))]
    fn is_right(&self) -> bool
        ensures { result ≡ pair_right self.now.file.now self.now.node }
    {
        let next = usize::from(self.node) + 1;
        let rows = byte_at(self.file, self.begin() + 14);
        self.file.len() >= 2 + 4 * next
            && self.begin() == self.due()
            && self.end() <= self.file.len()
            && self.size() == 16 + 10 * usize::from(rows)
            && (next < usize::from(byte_at(self.file, 0)) || self.end() == self.file.len())
    }

    // The record of the node.
    pub(crate) fn record(&self) -> &'a [u8]
        requires { pair_right self.now.file.now self.now.node ≡ true }
        ensures is { result.now ≡ record_at self.now.file.now self.now.node }
        ensures brief { length result.now ≤ 2 ^ 16 }
    {
        let begin = self.begin();
        &self.file[begin..begin + self.size()]
    }
}

// Refused by 2, at the first pair that is wrong.
pub(crate) fn check_pairs(file: &[u8]) -> Result<(), FileFault>
    ensures { fault_of result ≡ pair_fault file.now }
{
    (0..byte_at(file, 0))
        .find(|node| !Pair::of(file, *node).is_right())
        .map_or(Ok(()), |pair| Err(FileFault::Pair { pair }))
}

// Refused by 3, at the first node and byte that is out of its range.
pub(crate) fn check_bytes(file: &[u8]) -> Result<(), FileFault>
    requires { pair_fault file.now ≡ None }
    ensures { fault_of result ≡ byte_fault file.now }
{
    for node in 0..byte_at(file, 0) {
        check_record(node, Pair::of(file, node).record())?;
    }
    Ok(())
}
