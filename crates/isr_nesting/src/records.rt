// The recorded interrupts of a list, with what their vectors declare.

ghost use Rattle.std.specs.Prelude.{◌≡◌, ◌≤◌, All, map, IfOk};
ghost use Rattle.machine_model.specs.Frames.{interrupt_of};
ghost use Rattle.isr_nesting.specs.RecordView.{interrupt_in};

use app_image::VectorDef;
use inject_list::{Injection, Moment};
use kern_base::NoMemory;
use std::alloc::Global;

// A recorded interrupt: its moment, its vector and level, the first address and the stack pointer of its
// frame, and the words for a0 to a3. A vector that is not declared has level 0, and never enters.
#[derive(Clone, Copy)]
pub(crate) struct Recorded {
    pub moment: Moment,
    pub vector: u8,
    pub level: u8,
    pub entry: u32,
    pub sp: u32,
    pub words: [u32; 4],
}

// A recorded interrupt, at a vector that is declared so.
fn at_vector(injection: &Injection, level: u8, entry: u32, sp: u32) -> Recorded
    ensures { result ≡ record { moment = injection.now.moment; vector = injection.now.vector; level = level; entry = entry; sp = sp; words = injection.now.words } }
{
    Recorded {
        moment: injection.moment,
        vector: injection.vector,
        level,
        entry,
        sp,
        words: injection.words,
    }
}

// A recorded interrupt, with what its vector declares.
fn record_of(vectors: &[VectorDef], injection: &Injection) -> Recorded
    requires { All (λ v. v.level ≤ 7) vectors.now }
    ensures interrupt { interrupt_in result ≡ interrupt_of vectors.now injection.now }
    ensures low { result.level ≤ 7 }
{
    for vector in vectors {
        if vector.number == u32::from(injection.vector) {
            return at_vector(injection, vector.level as u8, vector.entry, vector.sp);
        }
    }
    at_vector(injection, 0, 0, 0)
}

// The interrupts of a list.
pub(crate) fn records_of(
    alloc: Global,
    vectors: &[VectorDef],
    injections: &[Injection],
) -> Result<Vec<Recorded>, NoMemory>
    requires { All (λ v. v.level ≤ 7) vectors.now }
    ensures interrupts { IfOk result (λ v. map interrupt_in v.items ≡ map (interrupt_of vectors.now) injections.now) }
    ensures low { IfOk result (λ v. All (λ r. r.level ≤ 7) v.items) }
{
    let mut records = Vec::new(alloc);
    for injection in injections {
        if records.push(record_of(vectors, injection)).is_err() {
            return Err(NoMemory);
        }
    }
    Ok(records)
}
