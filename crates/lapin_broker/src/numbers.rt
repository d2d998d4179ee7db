//! The numbers that publishes took, until they are settled: a window from the lowest that isn't settled to the last.

ghost use Rattle.std.specs.Prelude.{◌≡◌, ◌++◌, ◌∷◌, [], Some, OnOk, OnErr, ◌<◌};
ghost use Rattle.lapin_broker.specs.Numbers.{settled_through, after_settlement as after_settlement_lem, may_settle as may_settle_lem};
ghost use Rattle.lapin_broker.specs.States.{is_settled as is_settled_lem};

use lapin_tables::Numbered;
use lapin_types::NoMemory;

/// A whole publish takes the next number. The numbers stay where there is no memory.
pub(crate) fn take_number(numbers: &mut Numbered<()>) -> Result<(), NoMemory>
    ensures ok { OnOk result (numbers.new.slots ≡ numbers.old.slots ++ Some tt ∷ []) }
    ensures err { OnErr result (numbers.new.slots ≡ numbers.old.slots) }
{
    if numbers.next_number().is_none() {
        return Err(NoMemory);
    }
    numbers.reserve(1)?;
    let _ = numbers.push_reserved(());
    Ok(())
}

/// Whether a number is settled.
pub(crate) fn is_settled(numbers: &Numbered<()>, number: u64) -> bool
    ensures { result ≡ is_settled_lem number numbers.now.slots }
{
    0 < number && number <= numbers.count() && numbers.get(number).is_none()
}

/// Whether a settlement may be sent: a single one of a number that was read and isn't settled, a multiple one of any number from 1 to
/// the count.
pub(crate) fn may_settle(numbers: &Numbered<()>, number: u64, multiple: bool) -> bool
    ensures { result ≡ may_settle_lem number multiple numbers.now.slots }
{
    if multiple {
        0 < number && number <= numbers.count()
    } else {
        numbers.get(number).is_some()
    }
}

/// Settles a number, or every number up to it.
pub(crate) fn settle(numbers: &mut Numbered<()>, number: u64, multiple: bool)
    ensures { numbers.new.slots ≡ after_settlement_lem number multiple numbers.old.slots }
{
    if multiple {
        settle_through(numbers, number);
    } else {
        let _ = numbers.take(number);
    }
}

// Each step settles a number that wasn't, so what is settled costs nothing.
fn settle_through(numbers: &mut Numbered<()>, limit: u64)
    ensures { numbers.new.slots ≡ settled_through limit numbers.old.slots }
{
    while let Some(number) = numbers.first_number() {
        if number > limit {
            return;
        }
        let _ = numbers.take(number);
    }
}
