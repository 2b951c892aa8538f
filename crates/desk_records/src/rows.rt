//! What is kept of publications.
ghost use Rattle.std.specs.Prelude.{◌≡◌, ◌==◌, ℕ, vec_len, vec_capacity, if◌then◌else◌};
ghost use Rattle.std.specs.Option.{option_copied, option_map};
ghost use Rattle.desk_records.specs.Slots.{told, told_at, row_at, killed, withdrawn, fact_in, is_among};

use crate::dues::DueFact;
use crate::slots::{Slot, take_back};
use news_types::Moment;

/// What is kept of a publication: whether it was not withdrawn, and a slot for each subscriber that there was when it was made,
/// in the order of their being added.
#[derive(Drop)]
pub(crate) struct Row {
    pub(crate) stands: bool,
    pub(crate) slots: Vec<Slot>,
}

impl Row {
    /// What it is to the subscriber at a place.
    pub(crate) fn fact(&self, place: usize) -> Option<DueFact>
        ensures { result ≡ fact_in (told self.now) place }
    {
        match self.slots.get(place).copied()? {
            Slot::NotDue => None,
            Slot::Due { release } => Some(DueFact {
                release,
                stands: self.stands,
            }),
            Slot::TakenBack { release } => Some(DueFact {
                release,
                stands: false,
            }),
        }
    }

    /// Takes back what is not released by the moment.
    fn take_back(&mut self, moment: Moment)
        ensures { told self.new ≡ killed moment (told self.old) }
    {
        take_back(&mut self.slots, moment);
    }

    /// Withdraws it.
    fn withdraw(&mut self)
        ensures { told self.new ≡ withdrawn (told self.old) }
    {
        self.stands = false;
    }
}

/// The row of the publication of that number, from 1.
pub(crate) fn row_of(rows: &[Row], number: u32) -> Option<&Row>
    ensures { option_copied result ≡ row_at rows.now number }
{
    if number == 0 {
        return None;
    }
    rows.get(number as usize - 1)
}

/// Takes back the publication of that number, as far as it is not released by the moment.
fn take_back_one(rows: &mut Vec<Row>, number: u32, moment: Moment)
    ensures told { (n : ℕ) → told_at rows.new.items n ≡ (if number == n then option_map (killed moment) (told_at rows.old.items n) else told_at rows.old.items n) }
    ensures len { vec_len rows.new ≡ vec_len rows.old }
    ensures capacity { vec_capacity rows.new ≡ vec_capacity rows.old }
{
    if number == 0 {
        return;
    }
    if let Some(row) = rows.get_mut(number as usize - 1) {
        row.take_back(moment);
    }
}

/// Withdraws the publication of that number.
fn withdraw_one(rows: &mut Vec<Row>, number: u32)
    ensures told { (n : ℕ) → told_at rows.new.items n ≡ (if number == n then option_map withdrawn (told_at rows.old.items n) else told_at rows.old.items n) }
    ensures len { vec_len rows.new ≡ vec_len rows.old }
    ensures capacity { vec_capacity rows.new ≡ vec_capacity rows.old }
{
    if number == 0 {
        return;
    }
    if let Some(row) = rows.get_mut(number as usize - 1) {
        row.withdraw();
    }
}

/// Takes back the publications of these numbers, as far as they are not released by the moment.
pub(crate) fn take_back_all(rows: &mut Vec<Row>, numbers: &[u32], moment: Moment)
    ensures told { (n : ℕ) → told_at rows.new.items n ≡ (if is_among n numbers.now then option_map (killed moment) (told_at rows.old.items n) else told_at rows.old.items n) }
    ensures len { vec_len rows.new ≡ vec_len rows.old }
    ensures capacity { vec_capacity rows.new ≡ vec_capacity rows.old }
{
    for number in numbers {
        take_back_one(rows, *number, moment);
    }
}

/// Withdraws the publications of these numbers.
pub(crate) fn withdraw_all(rows: &mut Vec<Row>, numbers: &[u32])
    ensures told { (n : ℕ) → told_at rows.new.items n ≡ (if is_among n numbers.now then option_map withdrawn (told_at rows.old.items n) else told_at rows.old.items n) }
    ensures len { vec_len rows.new ≡ vec_len rows.old }
    ensures capacity { vec_capacity rows.new ≡ vec_capacity rows.old }
{
    for number in numbers {
        withdraw_one(rows, *number);
    }
}
