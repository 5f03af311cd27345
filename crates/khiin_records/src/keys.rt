// Raw keys that were checked.
ghost use Rattle.std.specs.Prelude.{◌≡◌, true};
ghost use Rattle.ji.specs.Text.{all_ascii};

use ji::reply::Refusal;
use ji::unicode;

// Raw keys, all of which are ASCII.
#[derive(Clone, Copy)]
pub(crate) struct Keys<'a> {
    pub bytes: &'a [u8],
    ghost ascii: { all_ascii bytes.now ≡ true },
}

impl<'a> Keys<'a> {
    ghost use Rattle.khiin_records.specs.Syllable.{check_keys};
    ghost use Rattle.khiin_records.specs.Keys.{keys_checked};

    // The keys, refused where they are too long or hold a byte above 7F.
    #[tactic(auto, unfolding(crate::specs::Syllable::check_keys))]
    pub(crate) fn of(bytes: &'a [u8]) -> Result<Keys<'a>, Refusal>
        ensures { keys_checked result ≡ check_keys bytes.now }
    {
        if 256 < bytes.len() {
            Err(Refusal::TooLong)
        } else if unicode::is_ascii(bytes) {
            Ok(Keys { bytes })
        } else {
            Err(Refusal::OutsideTable)
        }
    }
}
