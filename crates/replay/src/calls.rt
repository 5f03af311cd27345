// The calls by their numbers, as the records of a list name them. They stay numbers: an enum would be matched twice, once from the number and once for
// the call, and the definition of a record speaks of its number.
ghost use Rattle.std.specs.Prelude.{◌≡◌, ◌≤◌, length};
ghost use Rattle.robinflint.specs.Reply.{reply_of};
ghost use Rattle.replay.specs.Calls.{answer_of, seven_of, syllable_answer};

use crate::record::Header;
use robinflint::reply::Reply;

// Makes the call of a header, with the first bytes of `buffer` lent to it where it takes a buffer. `other` is the second text.
#[tactic(auto, unfolding(crate::specs::Calls::answer_of, crate::specs::Calls::choose))]
pub(crate) fn answer(h: Header, text: &[u8], other: &[u8], buffer: &mut [u8]) -> Reply
    requires { h.lent ≤ length buffer.old }
    ensures { reply_of result buffer.new ≡ answer_of h text.now other.now buffer.old }
{
    let lent = h.lent;
    let call = h.call;
    match call {
        0 => robinflint::rf_strip(text, &mut buffer[..lent]),
        1 => robinflint::rf_tone_letter(text),
        2 => workbench::wb_nfd(text, &mut buffer[..lent]),
        3 => workbench::wb_nfc(text, &mut buffer[..lent]),
        4 => workbench::wb_strip_khin(text),
        5 => workbench::wb_has_tone_letter(text),
        6 => workbench::wb_keys(
            text,
            u64::from(h.first),
            u64::from(h.second),
            &mut buffer[..lent],
        ),
        _ => answer_of_syllables(h, text, other, &mut buffer[..lent]),
    }
}

// Makes a call from 7 on. Each of them takes a buffer, which is `out`.
#[tactic(auto, unfolding(crate::specs::Calls::syllable_answer))]
fn answer_of_syllables(h: Header, text: &[u8], other: &[u8], out: &mut [u8]) -> Reply
    ensures { reply_of result out.new ≡ syllable_answer h text.now other.now out.old }
{
    let call = h.call;
    match call {
        7 => robinflint::rf_from_raw(text, out),
        8 => robinflint::rf_compose(text, other, u64::from(h.first), u64::from(h.second), out),
        9 => robinflint::rf_candidate(text, h.asked, out),
        10 => robinflint::rf_keying(text, u64::from(h.first), h.asked, out),
        11 => {
            let keys = seven(other);
            robinflint::rf_telex(text, u64::from(h.second), u64::from(h.first), &keys, out)
        }
        _ => robinflint::rf_align(text, other, out),
    }
}

// The tone keys in a text of seven bytes. Any other text counts as seven zeros.
fn seven(s: &[u8]) -> [u8; 7]
    ensures { result ≡ seven_of s.now }
{
    s.try_into().unwrap_or([0; 7])
}
