// A text that is stripped and taken apart, as both the candidates and the alignment need it.
ghost use Rattle.std.specs.Prelude.{◌*◌, ◌≤◌, length};

use crate::ending::Ending;
use ji::lomaji::{khin, strip};
use ji::reply::Refusal;

// What stands behind khin in a stripped text, and what its raw input ends in. That the rest has at most 640 bytes, and which code points it is the UTF-8
// of, is said in the five clauses that need it: of ghost fields each caller of `of` would have to show that they are the code points which the
// definitions make.
#[derive(Clone, Copy)]
pub(crate) struct Stripped<'a> {
    pub rest: &'a [u8],
    pub ending: Ending,
}

impl<'a> Stripped<'a> {
    ghost use Rattle.khiin_records.specs.Stripped.{Strips};

    // Strips a text in `buffer`, which has five bytes for each two of the text. Written into its callers, so that the answer need not go through memory.
    #[inline(always)]
    pub(crate) fn of(text: &[u8], buffer: &'a mut [u8]) -> Result<Stripped<'a>, Refusal>
        requires { 5 * length text.now ≤ 2 * length buffer.old }
        ensures { Strips text.now (length buffer.old) result }
    {
        let result = strip::strip_tone_diacritic(text, buffer)?;
        let stripped = &buffer[..result.len.0];
        let ending = Ending {
            tone: result.tone,
            khin: khin::khin_of(stripped),
        };
        Ok(Stripped {
            rest: khin::strip_khin(stripped),
            ending,
        })
    }
}
