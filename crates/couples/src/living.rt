//! The whole life of a couple: a list of calls from the making of its boards on.
ghost use Rattle.std.specs.Prelude.{◌≡◌, ◌≤◌, true, length, is_ok, is_err, take, drop};
ghost use Rattle.board.specs.States.{Lent};
ghost use Rattle.avr.specs.Chip.{memory_size, blank_memory};
ghost use Rattle.couples.specs.Lives.{life_of, life_says, WorkedAll, Lived, Noninterference};

use crate::answers::Answers;
use crate::fault::LifeFault;
use crate::working::{Call, Couple};
use avr::location::Location;
use board::memory::Memory;
use words::listing::Listing;

/// Works calls on a couple, one after another, and writes what it answers to each.
fn work_all(couple: &mut Couple<'_, '_, '_>, calls: &[Call<Location>], answers: &mut [Answers])
    requires { length calls.now ≤ length answers.old }
    ensures worked { WorkedAll calls.now couple.old couple.new (take (length calls.now) answers.new) }
    ensures beyond { drop (length calls.now) answers.new ≡ drop (length calls.now) answers.old }
    ensures lent { (Lent couple.old.left couple.new.left) × (Lent couple.old.right couple.new.right) }
{
    for (at, call) in calls.iter().enumerate() {
        answers[at] = couple.work(*call);
    }
}

/// Sets every byte of a memory to 0.
fn wipe(memory: &mut [u8])
    requires { length memory.old ≡ memory_size }
    ensures { memory.new ≡ blank_memory }
{
    memory.fill(0);
}

/// Makes two boards on the same words, each on 65,536 lent bytes of its own, and works calls on both, one after another, from their
/// making on. The answer to each call, of both boards, is written to `answers`, in the order of the calls; further room stays as it is.
/// The lent bytes are 0 at the end, so that no secret stays behind in them.
///
/// Refused, with nothing changed: where there is room for fewer answers than there are calls; where the words are no listing; where
/// one of the memories has not 65,536 bytes.
///
/// This is where the promise of the judge meets boards that run. Whatever the order of levels, if only it keeps the laws, and whatever
/// the rows, if only the judge accepts them with these words: to an observer of any level that the order holds, both boards gave the
/// same answers, cycle counts among them, but for bytes read from places that the finish row hides, where the calls differ only in
/// bytes put into places that the first row hides.
pub fn live(
    words: &[u16],
    left: &mut [u8],
    right: &mut [u8],
    calls: &[Call<Location>],
    answers: &mut [Answers],
) -> Result<(), LifeFault>
    ensures answer { life_says result ≡ life_of words.now left.old right.old (length calls.now) (length answers.old) }
    ensures lived { is_ok result ≡ true → Lived words.now calls.now (take (length calls.now) answers.new) }
    ensures cleared { is_ok result ≡ true → (left.new ≡ blank_memory) × (right.new ≡ blank_memory) }
    ensures beyond { drop (length calls.now) answers.new ≡ drop (length calls.now) answers.old }
    ensures unchanged { is_err result ≡ true → (left.new ≡ left.old) × (right.new ≡ right.old) × (answers.new ≡ answers.old) }
    ensures hides { is_ok result ≡ true → Noninterference words.now calls.now (take (length calls.now) answers.new) }
{
    if answers.len() < calls.len() {
        return Err(LifeFault::Room);
    }
    Couple::check(words, left, right).map_err(LifeFault::Making)?;
    let listing = Listing::new(words);
    let mut couple = Couple::new(listing, Memory::new(left), Memory::new(right));
    work_all(&mut couple, calls, answers);
    drop(couple);
    wipe(left);
    wipe(right);
    Ok(())
}
