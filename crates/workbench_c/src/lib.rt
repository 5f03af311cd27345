// The functions of libworkbench.a, which only the comparison links. Each is the function of that name of the crate workbench, and states its clause again.
#![tactic(auto)]

ghost use Rattle.std.specs.Prelude.{◌≡◌, []};
ghost use Rattle.ji.specs.Unicode.{unicode16};
ghost use Rattle.ji.specs.Reply.{text_call};
ghost use Rattle.ji.specs.Nfd.{nfd};
ghost use Rattle.ji.specs.Nfc.{nfc};
ghost use Rattle.ji.specs.Lomaji.ToneLetter.{has_tone_letter_call};
ghost use Rattle.robinflint.specs.Reply.{reply_of};
ghost use Rattle.workbench.specs.Khin.{khin_call};
ghost use Rattle.workbench.specs.Keys.{keys_call};
ghost use Rattle.workbench.specs.Listing.{listing_call};

use robinflint::reply::Reply;

// NFD of the text. Refuses with 2, 3, 4, 7.
#[unsafe(no_mangle)]
pub extern "C" fn wb_nfd(text: &[u8], out: &mut [u8]) -> Reply
    ensures { reply_of result out.new ≡ text_call unicode16 (nfd unicode16) text.now out.old }
{
    workbench::wb_nfd(text, out)
}

// NFC of the text. Refuses with 2, 3, 4, 7.
#[unsafe(no_mangle)]
pub extern "C" fn wb_nfc(text: &[u8], out: &mut [u8]) -> Reply
    ensures { reply_of result out.new ≡ text_call unicode16 (nfc unicode16) text.now out.old }
{
    workbench::wb_nfc(text, out)
}

// What `strip_khin` hands back: the length of the rest, where it begins, and whether there was a mark.
#[unsafe(no_mangle)]
pub extern "C" fn wb_strip_khin(text: &[u8]) -> Reply
    ensures { reply_of result [] ≡ khin_call text.now }
{
    workbench::wb_strip_khin(text)
}

// Whether the NFD of the text has a tone letter: length 1, or 0. Refuses with 2, 3, 4.
#[unsafe(no_mangle)]
pub extern "C" fn wb_has_tone_letter(text: &[u8]) -> Reply
    ensures { reply_of result [] ≡ has_tone_letter_call unicode16 text.now }
{
    workbench::wb_has_tone_letter(text)
}

// The keys of a syllable: form 0 plain, 1 `_oo`; kind 0 detoned, 1 numeric, 2 telex. Refuses with 1, 2, 3, 4, 7.
#[unsafe(no_mangle)]
pub extern "C" fn wb_keys(text: &[u8], form: u64, kind: u64, out: &mut [u8]) -> Reply
    ensures { reply_of result out.new ≡ keys_call form kind text.now out.old }
{
    workbench::wb_keys(text, form, kind, out)
}

// The lines of an entry's listing from number `from` on, as many as go into `out` whole: as the length how many bytes, as the count how many lines,
// and as the position the number of the next line. An entry that is refused has one line, which says so.
#[unsafe(no_mangle)]
pub extern "C" fn wb_listing(entry: &[u8], from: u64, out: &mut [u8]) -> Reply
    ensures { reply_of result out.new ≡ listing_call entry.now from out.old }
{
    workbench::wb_listing(entry, from, out)
}
