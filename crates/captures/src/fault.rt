/// Why a file is not read as a capture, or not any further.
#[derive(Clone, Copy, PartialEq, Eq, Debug)]
pub enum CaptureFault {
    /// The file has fewer than 24 bytes, or begins with none of the four magic spellings.
    NotCapture,
    /// The packets are not Ethernet's: the link type that the file names.
    NotEthernet {
        link: u16,
    },
    /// Fewer than 16 bytes are left for the header of the record at the offset.
    HeaderCut {
        offset: usize,
    },
    /// The packet of the record at the offset is cut: how many bytes the record names, and how many are
    /// there.
    PacketCut {
        offset: usize,
        captured: u32,
        there: usize,
    },
}
