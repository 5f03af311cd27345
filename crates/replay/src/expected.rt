// Whether a reply and the buffer are as a record says.
ghost use Rattle.std.specs.Prelude.{◌≡◌, [], length};
ghost use Rattle.robinflint.specs.Reply.{reply_of};
ghost use Rattle.std.specs.Bool.{Decides};
ghost use Rattle.replay.specs.Expected.{untouched, written, said, same_numbers, AsSaid};

use crate::record::Header;
use robinflint::reply::Reply;

// A buffer before a call. A call is lent at most 3,072 bytes, so there are some behind them.
pub(crate) fn fresh_buffer() -> [u8; 3136]
    ensures { (result ≡ untouched 3136) × (3136 ≡ length result) }
{
    [0xA5; 3136]
}

// Whether no byte has changed since `fresh_buffer`.
pub(crate) fn is_untouched(bytes: &[u8]) -> bool
    ensures { Decides result (bytes.now ≡ untouched (length bytes.now)) }
{
    bytes.iter().all(|byte| *byte == 0xA5)
}

// How many bytes the call is to write.
pub(crate) fn bytes_written(h: Header) -> usize
    ensures { result ≡ written h }
{
    if h.code == 0 && matches!(h.call, 0 | 2 | 3 | 6..) {
        h.length
    } else {
        0
    }
}

// Whether the numbers of a reply are the header's.
pub(crate) fn has_numbers(reply: Reply, h: Header) -> bool
    ensures { result ≡ same_numbers (reply_of reply []) (said h []) }
{
    reply
        == Reply {
            code: u64::from(h.code),
            length: h.length as u64,
            count: h.count,
            body: h.body as u64,
            tone: u64::from(h.tone),
            khin: u64::from(h.khin),
            position: h.position as u64,
        }
}

// Whether a reply and the buffer are as the record says, whose output is `wanted`.
pub(crate) fn is_as_said(h: Header, wanted: &[u8], reply: Reply, buffer: &[u8]) -> bool
    ensures { Decides result (AsSaid h wanted.now (reply_of reply buffer.now)) }
{
    wanted.len() == bytes_written(h)
        && has_numbers(reply, h)
        && buffer
            .strip_prefix(wanted)
            .is_some_and(|rest| is_untouched(rest))
}
