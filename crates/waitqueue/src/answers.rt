// How an answer crosses to C: as a number, and in a word that keeps what it held where the call is refused.
ghost use Rattle.std.specs.Prelude.{◌≡◌, pos};
ghost use Rattle.thread.specs.Answer.{told, kept, done, itself, whether, given};

use thread::{Coded, Errno, OK, told};

// A number, or the code of the refusal.
pub(crate) fn wide(answer: Result<u32, Errno>) -> i64
    ensures { result ≡ told pos answer }
{
    match answer {
        Ok(number) => i64::from(number),
        Err(refusal) => i64::from(refusal.code()),
    }
}

// The value goes to the word.
pub(crate) fn told_in<T: Copy>(answer: Result<T, Errno>, word: &mut T) -> i32
    ensures code { result ≡ told done answer }
    ensures word { word.new ≡ kept itself answer word.old }
{
    match answer {
        Ok(value) => {
            *word = value;
            OK
        }
        Err(refusal) => refusal.code(),
    }
}

// The word of the thread that is woken, if there is one, goes to who.
pub(crate) fn told_who(answer: Result<Option<u64>, Errno>, who: &mut u64) -> i32
    ensures code { result ≡ told whether answer }
    ensures who { who.new ≡ kept given answer who.old }
{
    if let Ok(Some(woken)) = answer {
        *who = woken;
    }
    told(answer)
}
