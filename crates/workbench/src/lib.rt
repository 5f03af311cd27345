// Parts of the libraries that are no C function of their own. The crate workbench_c exports them, to be compared with the Rust and timed. Not shipped.
#![tactic(auto)]

ghost use Rattle.std.specs.Prelude.{◌≡◌, []};
ghost use Rattle.ji.specs.Unicode.{unicode16};
ghost use Rattle.ji.specs.Reply.{text_call};
ghost use Rattle.ji.specs.Nfd.{nfd};
ghost use Rattle.ji.specs.Nfc.{nfc};
ghost use Rattle.ji.specs.Lomaji.ToneLetter.{has_tone_letter_call};
ghost use Rattle.robinflint.specs.Reply.{reply_of};
ghost use Rattle.workbench.specs.Khin.{khin_call};
ghost use Rattle.workbench.specs.Keys.{form_of, keys_call};
ghost use Rattle.workbench.specs.Listing.{listing_call};

use ji::lomaji::keys::Form;
use ji::lomaji::{keys, khin, tone_letter};
use ji::reply::Refusal;
use ji::{nfc, nfd};
use khiin_entries::listing;
use robinflint::arguments::kind_of;
use robinflint::reply::{Reply, ZEROS, found, refuse, to_reply};

// NFD of the text. Refuses with 2, 3, 4, 7.
pub fn wb_nfd(text: &[u8], out: &mut [u8]) -> Reply
    ensures { reply_of result out.new ≡ text_call unicode16 (nfd unicode16) text.now out.old }
{
    to_reply(nfd::to_nfd(text, out))
}

// NFC of the text. Refuses with 2, 3, 4, 7.
pub fn wb_nfc(text: &[u8], out: &mut [u8]) -> Reply
    ensures { reply_of result out.new ≡ text_call unicode16 (nfc unicode16) text.now out.old }
{
    to_reply(nfc::to_nfc(text, out))
}

// What `strip_khin` hands back: the length of the rest, where it begins, and whether there was a mark.
#[tactic(auto, unfolding(ji::specs::Lomaji::Khin::after_khin, ji::specs::Lomaji::Khin::khin_of))]
pub fn wb_strip_khin(text: &[u8]) -> Reply
    ensures { reply_of result [] ≡ khin_call text.now }
{
    let rest = khin::strip_khin(text);
    Reply {
        length: rest.len() as u64,
        khin: khin::khin_of(text).number(),
        position: (text.len() - rest.len()) as u64,
        ..ZEROS
    }
}

// Whether the NFD of the text has a tone letter: length 1, or 0. Refuses with 2, 3, 4.
pub fn wb_has_tone_letter(text: &[u8]) -> Reply
    ensures { reply_of result [] ≡ has_tone_letter_call unicode16 text.now }
{
    match tone_letter::has_tone_letter(text) {
        Err(why) => refuse(why),
        Ok(true) => found(1, 0),
        Ok(false) => found(0, 0),
    }
}

// The keys of a syllable: form 0 plain, 1 `_oo`; kind 0 detoned, 1 numeric, 2 telex. Refuses with 1, 2, 3, 4, 7.
pub fn wb_keys(text: &[u8], form: u64, kind: u64, out: &mut [u8]) -> Reply
    ensures { reply_of result out.new ≡ keys_call form kind text.now out.old }
{
    if 1 < form || 2 < kind {
        return refuse(Refusal::Argument);
    }
    to_reply(keys::keys(text, form_of(form), kind_of(kind), out))
}

// 0 is plain, any other number `_oo`. The call asks of both its numbers at once before, as those of `robinflint` do.
fn form_of(number: u64) -> Form
    ensures { result ≡ form_of number }
{
    match number {
        0 => Form::Plain,
        _ => Form::Oo,
    }
}

// The lines of an entry's listing from number `from` on, as many as go into `out` whole: as the length how many bytes, as the count how many lines,
// and as the position the number of the next line. An entry that is refused has one line, which says so.
#[tactic(auto, unfolding(khiin_entries::specs::Listing::shown))]
pub fn wb_listing(entry: &[u8], from: u64, out: &mut [u8]) -> Reply
    ensures { reply_of result out.new ≡ listing_call entry.now from out.old }
{
    let listed = listing::list(entry, from, out);
    Reply {
        length: listed.len.0 as u64,
        count: listed.next - from,
        position: listed.next,
        ..ZEROS
    }
}
