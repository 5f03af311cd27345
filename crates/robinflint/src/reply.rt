// What a call replies to C.
ghost use Rattle.std.specs.Prelude.{◌≡◌, List, [], ℕ, Result, Ok, Err, refl};
ghost use Rattle.ji.specs.declared.reply.Refusal.{Refusal};
ghost use Rattle.ji.specs.Reply as ji;
ghost use Rattle.ji.specs.Reply.{refused, found, text_reply};
ghost use Rattle.ji.specs.Lomaji.Strip.{strip_reply};
ghost use Rattle.khiin_entries.specs.KeySequence.{keying_reply};
ghost use Rattle.khiin_records.specs.Syllable.{record_reply};
ghost use Rattle.robinflint.specs.Reply.{reply_of};

use ji::lomaji::strip::StripResult;
use ji::reply::Refusal;
use ji::unicode::ByteLen;
use khiin_entries::key_sequence::KeyingResult;
use khiin_records::Record;

// 0 or the refusal's number, and the numbers that a call gives, each 0 where it gives none.
#[repr(C)]
#[derive(Clone, Copy, PartialEq, Eq)]
pub struct Reply {
    pub code: u64,
    pub length: u64,
    pub count: u64,
    pub body: u64,
    pub tone: u64,
    pub khin: u64,
    pub position: u64,
}

// The numbers of a call that gives none: a constant, which proofs compute, where `default` would be a call.
pub const ZEROS: Reply = Reply {
    code: 0,
    length: 0,
    count: 0,
    body: 0,
    tone: 0,
    khin: 0,
    position: 0,
};

// A refusal: its number, and zeros.
#[inline(always)]
pub fn refuse(why: Refusal) -> Reply
    ensures { (buffer : List ℕ) → reply_of result buffer ≡ refused why buffer }
{
    Reply {
        code: why.number(),
        ..ZEROS
    }
}

// A length, and a position.
#[inline(always)]
pub fn found(length: u64, position: u64) -> Reply
    ensures { reply_of result [] ≡ found length position }
{
    Reply {
        length,
        position,
        ..ZEROS
    }
}

// A good answer of a call, which is laid out in numbers. `reply` says what the call replies to it, or to a refusal, with what the lent buffer holds.
pub trait Answer: Copy {
    ghost reply: { Result Self Refusal → List ℕ → ji.Reply };

    fn numbers(self) -> Reply
        ensures { (buffer : List ℕ) → reply_of result buffer ≡ reply (Ok self) buffer };

    ghost refusal: { (why : Refusal) (buffer : List ℕ) → reply (Err why) buffer ≡ refused why buffer };
}

// A text in the lent buffer.
impl Answer for ByteLen {
    ghost reply = { text_reply };

    ghost refusal = { λ why buffer. refl };

    #[inline(always)]
    fn numbers(self) -> Reply {
        Reply {
            length: self.0 as u64,
            ..ZEROS
        }
    }
}

// A stripped text in the lent buffer, and its tone.
impl Answer for StripResult {
    ghost reply = { strip_reply };

    ghost refusal = { λ why buffer. refl };

    #[inline(always)]
    fn numbers(self) -> Reply {
        Reply {
            length: self.len.0 as u64,
            tone: self.tone.number() as u64,
            ..ZEROS
        }
    }
}

// A syllable record, with its raw input in the lent buffer.
impl Answer for Record {
    ghost reply = { record_reply };

    ghost refusal = { λ why buffer. refl };

    #[inline(always)]
    fn numbers(self) -> Reply {
        let Record {
            len,
            count,
            body,
            tone,
            khin,
        } = self;
        Reply {
            length: len.0 as u64,
            count,
            body: body.0 as u64,
            tone: tone.number() as u64,
            khin: khin.number(),
            ..ZEROS
        }
    }
}

// A keying in the lent buffer, and how many its list has.
impl Answer for KeyingResult {
    ghost reply = { keying_reply };

    ghost refusal = { λ why buffer. refl };

    #[inline(always)]
    fn numbers(self) -> Reply {
        Reply {
            length: self.len.0 as u64,
            count: self.count,
            ..ZEROS
        }
    }
}

// The reply to an answer, or to the refusal in its place.
#[inline(always)]
pub fn to_reply<A: Answer>(answer: Result<A, Refusal>) -> Reply
    ensures { (buffer : List ℕ) → reply_of result buffer ≡ A.reply answer buffer }
{
    match answer {
        Ok(answer) => answer.numbers(),
        Err(why) => refuse(why),
    }
}
