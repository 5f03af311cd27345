// A record of a list of answers: a header of 36 bytes, then the first text, the second text, and the bytes that the call is to write.
ghost use Rattle.std.specs.Prelude.{◌≡◌, ◌+◌, ◌*◌, get_or};
ghost use Rattle.replay.specs.Record.{eight_at, header_of, replayable};

// The most bytes of a text, of a lent buffer, and of an output.
pub const MOST: usize = 3072;

// The numbers of a header. `call`, `first`, `second` and `asked` are what to call: the call, its first and second number, and the position that
// it is asked for. `code`, `length`, `body`, `tone`, `khin`, `position` and `count` are what it is to reply. `input`, `other`, `lent` and
// `wanted` are how many bytes the first text has, the second text, the lent buffer, and the output that stands in the record.
#[derive(Clone, Copy)]
pub struct Header {
    pub call: u8,
    pub first: u8,
    pub second: u8,
    pub code: u8,
    pub tone: u8,
    pub khin: u8,
    pub input: usize,
    pub other: usize,
    pub lent: usize,
    pub length: usize,
    pub body: usize,
    pub position: usize,
    pub wanted: usize,
    pub asked: u64,
    pub count: u64,
}

// The number that two bytes are, the low one first. A caller names each byte: a part of the header becomes an array only by a conversion that may fail.
fn pair(bytes: [u8; 2]) -> usize
    ensures { result ≡ get_or bytes 0 0 + 256 * get_or bytes 1 0 }
{
    usize::from(u16::from_le_bytes(bytes))
}

// The number that eight bytes are, the lowest one first.
fn word(bytes: [u8; 8]) -> u64
    ensures { result ≡ eight_at bytes 0 }
{
    u64::from_le_bytes(bytes)
}

pub(crate) fn read(s: &[u8; 36]) -> Header
    ensures { result ≡ header_of s.now }
{
    Header {
        call: s[0],
        first: s[1],
        second: s[2],
        code: s[3],
        tone: s[14],
        khin: s[15],
        input: pair([s[4], s[5]]),
        other: pair([s[6], s[7]]),
        lent: pair([s[8], s[9]]),
        length: pair([s[10], s[11]]),
        body: pair([s[12], s[13]]),
        position: pair([s[16], s[17]]),
        wanted: pair([s[18], s[19]]),
        asked: word([s[20], s[21], s[22], s[23], s[24], s[25], s[26], s[27]]),
        count: word([s[28], s[29], s[30], s[31], s[32], s[33], s[34], s[35]]),
    }
}

// Whether there is such a call, and room for the record.
pub(crate) fn is_replayable(h: Header) -> bool
    ensures { result ≡ replayable h }
{
    h.call <= 12 && h.input <= MOST && h.other <= MOST && h.lent <= MOST && h.wanted <= MOST
}
