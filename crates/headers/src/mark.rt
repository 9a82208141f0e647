/// Where a header lies in a packet: the node of the graph and the kind that it was read as, its offset
/// and its length in bytes. The kind is a number and no `Kind`, since a mark may be made up: a number
/// over 10 is refused by 17 where it is used.
#[derive(Clone, Copy, PartialEq, Eq, Debug)]
pub struct Mark {
    pub node: u8,
    pub kind: u8,
    pub offset: u16,
    pub length: u16,
}
