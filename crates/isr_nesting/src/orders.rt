// The interrupts of a list in the order in which they come.

ghost use Rattle.std.specs.Prelude.{◌≡◌, ◌<◌, ◌≤◌, ℕ, IfOk, length, map, slice_index};
ghost use Rattle.isr_nesting.specs.Keys.{key};
ghost use Rattle.isr_nesting.specs.Order.{IsOrder, timed_at, timed_in};
ghost use Rattle.isr_nesting.specs.RecordView.{record_at, task_numbers};

use crate::records::Recorded;
use crate::waits::key;
use inject_list::Moment;
use kern_base::NoMemory;
use std::alloc::Global;

// An interrupt whose moment is in raw steps, and its number.
#[derive(Clone, Copy)]
pub(crate) struct Timed {
    pub moment: u64,
    pub number: u32,
}

// Those whose moment is in raw steps, in the order of the list.
fn by_number(alloc: Global, records: &[Recorded]) -> Result<Vec<Timed>, NoMemory>
    requires { length records.now ≤ 16384 }
    ensures { IfOk result (λ v. v.items ≡ timed_in 0 records.now) }
{
    let mut timed = Vec::new(alloc);
    for (number, recorded) in records.iter().enumerate() {
        if let Moment::Step(moment) = recorded.moment {
            let entry = Timed {
                moment,
                number: number as u32,
            };
            if timed.push(entry).is_err() {
                return Err(NoMemory);
            }
        }
    }
    Ok(timed)
}

// Those whose moment is in raw steps, the earliest first.
pub(crate) fn in_order(alloc: Global, records: &[Recorded]) -> Result<Vec<Timed>, NoMemory>
    requires { length records.now ≤ 16384 }
    ensures { IfOk result (λ v. IsOrder records.now v.items) }
{
    let mut order = by_number(alloc, records)?;
    order.sort_unstable_by_key(|entry| entry.moment);
    Ok(order)
}

// Where each of them stands in the order, by number; 0 for the others.
pub(crate) fn places(alloc: Global, count: usize, order: &[Timed]) -> Result<Vec<u32>, NoMemory>
    requires few { length order.now ≤ 16384 }
    requires inside { (j : ℕ) → j < length order.now → (timed_at order.now j).number < count }
    requires once { (i j : ℕ) → i < length order.now → j < length order.now → (timed_at order.now i).number ≡ (timed_at order.now j).number → i ≡ j }
    ensures size { IfOk result (λ v. length v.items ≡ count) }
    ensures places { IfOk result (λ v. (j : ℕ) → j < length order.now → slice_index v.items (timed_at order.now j).number ≡ j) }
{
    let Ok(mut places) = Vec::from_elem(alloc, 0_u32, count) else {
        return Err(NoMemory);
    };
    for (place, entry) in order.iter().enumerate() {
        places[entry.number as usize] = place as u32;
    }
    Ok(places)
}

// Their moments.
pub(crate) fn moments(alloc: Global, order: &[Timed]) -> Result<Vec<u64>, NoMemory>
    ensures { IfOk result (λ v. v.items ≡ map (λ x. x.moment) order.now) }
{
    let mut moments = Vec::new(alloc);
    for entry in order {
        if moments.push(entry.moment).is_err() {
            return Err(NoMemory);
        }
    }
    Ok(moments)
}

// Their keys.
pub(crate) fn keys(
    alloc: Global,
    records: &[Recorded],
    order: &[Timed],
) -> Result<Vec<u32>, NoMemory>
    requires few { length records.now ≤ 16384 }
    requires levels { (i : ℕ) → i < length records.now → (record_at records.now i).level ≤ 7 }
    requires inside { (j : ℕ) → j < length order.now → (timed_at order.now j).number < length records.now }
    ensures { IfOk result (λ v. v.items ≡ map (λ x. key (record_at records.now x.number).level x.number) order.now) }
{
    let mut keys = Vec::new(alloc);
    for entry in order {
        let level = records[entry.number as usize].level;
        if keys.push(key(level, entry.number)).is_err() {
            return Err(NoMemory);
        }
    }
    Ok(keys)
}

// The numbers of those whose moment is in task steps, in the order of the list.
pub(crate) fn tasks(alloc: Global, records: &[Recorded]) -> Result<Vec<u32>, NoMemory>
    requires { length records.now ≤ 16384 }
    ensures { IfOk result (λ v. v.items ≡ task_numbers 0 records.now) }
{
    let mut tasks = Vec::new(alloc);
    for (number, recorded) in records.iter().enumerate() {
        if let Moment::Task(_) = recorded.moment {
            if tasks.push(number as u32).is_err() {
                return Err(NoMemory);
            }
        }
    }
    Ok(tasks)
}
