// The functions of librobinflint.a, as include/robinflint.h declares them. Each is the function of that name of the crate robinflint, and states its clause again.
#![tactic(auto)]

ghost use Rattle.std.specs.Prelude.{◌≡◌, []};
ghost use Rattle.ji.specs.Unicode.{unicode16};
ghost use Rattle.ji.specs.Lomaji.Strip.{strip_call};
ghost use Rattle.ji.specs.Lomaji.ToneLetter.{tone_letter_call};
ghost use Rattle.khiin_records.specs.Alignment.{align_call};
ghost use Rattle.khiin_records.specs.Syllable.{from_raw_call, candidate_call};
ghost use Rattle.robinflint.specs.Arguments.{compose_numbered, telex_numbered, keying_numbered};
ghost use Rattle.robinflint.specs.Reply.{reply_of};

use robinflint::reply::Reply;

// The text without its tone marks, in NFD, and its tone. Refuses with 2, 3, 4, 7.
#[unsafe(no_mangle)]
pub extern "C" fn rf_strip(text: &[u8], out: &mut [u8]) -> Reply
    ensures { reply_of result out.new ≡ strip_call unicode16 text.now out.old }
{
    robinflint::rf_strip(text, out)
}

// Where the tone letter of the text stands, in bytes: length 1 and the position, or length 0. Refuses with 2, 3, 4.
#[unsafe(no_mangle)]
pub extern "C" fn rf_tone_letter(text: &[u8]) -> Reply
    ensures { reply_of result [] ≡ tone_letter_call unicode16 text.now }
{
    robinflint::rf_tone_letter(text)
}

// The record of raw keys. Refuses with 2, 4, 7.
#[unsafe(no_mangle)]
pub extern "C" fn rf_from_raw(keys: &[u8], out: &mut [u8]) -> Reply
    ensures { reply_of result out.new ≡ from_raw_call keys.now out.old }
{
    robinflint::rf_from_raw(keys, out)
}

// The record at the position of those that a composed syllable may be typed as, and how many there are. Refuses with 2, 3, 4, 6, 7.
#[unsafe(no_mangle)]
pub extern "C" fn rf_candidate(text: &[u8], position: u64, out: &mut [u8]) -> Reply
    ensures { reply_of result out.new ≡ candidate_call unicode16 text.now position out.old }
{
    robinflint::rf_candidate(text, position, out)
}

// The record of the keys that were typed for the syllable `target`: length 0 is "no alignment". Refuses with 2, 4 for the keys, 2, 3, 4 for the target, 7.
#[unsafe(no_mangle)]
pub extern "C" fn rf_align(keys: &[u8], target: &[u8], out: &mut [u8]) -> Reply
    ensures { reply_of result out.new ≡ align_call unicode16 keys.now target.now out.old }
{
    robinflint::rf_align(keys, target, out)
}

// What a syllable record is written as. Refuses with 1, 2, 3, 4, 7.
#[unsafe(no_mangle)]
pub extern "C" fn rf_compose(raw: &[u8], body: &[u8], tone: u64, khin: u64, out: &mut [u8]) -> Reply
    ensures { reply_of result out.new ≡ compose_numbered raw.now body.now tone khin out.old }
{
    robinflint::rf_compose(raw, body, tone, khin, out)
}

// What a text becomes when a key is typed. `keys` are those of the tones 2 3 5 6 7 8 9. Refuses with 1, 2, 3, 4, 7.
#[unsafe(no_mangle)]
pub extern "C" fn rf_telex(
    text: &[u8],
    key: u64,
    mode: u64,
    keys: &[u8; 7],
    out: &mut [u8],
) -> Reply
    ensures { reply_of result out.new ≡ telex_numbered text.now key mode keys.now out.old }
{
    robinflint::rf_telex(text, key, mode, keys, out)
}

// The keying at the position of an entry's list of a kind, and how many the list has. Refuses with 1, 2, 3, 4, 5, 6, 7.
#[unsafe(no_mangle)]
pub extern "C" fn rf_keying(entry: &[u8], kind: u64, position: u64, out: &mut [u8]) -> Reply
    ensures { reply_of result out.new ≡ keying_numbered entry.now kind position out.old }
{
    robinflint::rf_keying(entry, kind, position, out)
}
